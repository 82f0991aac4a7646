// The step that a host calls, and its inner part. Nothing is asked of the state that a host hands in.
ghost use Rattle.std.specs.Prelude.{◌≡◌, ◌≤◌, length, drop};
ghost use Rattle.elements.specs.Given.{longest};
ghost use Rattle.walk_theory.specs.Step.{step, answer, handing};
ghost use Rattle.grammar.specs.Epl.{epl};
ghost use Rattle.walk.specs.Steps.{state_of, answer_of};

use crate::answer::{Answer, Printed};
use elements::refusal::{LONGEST, Refusal};
use elements::walk_state::WalkState;
use elements::{LabelPosition, PrintCounts};
use walk_unit::unit::{Reading, read_unit};

// The step: an element, a clear, a print, the end, or a refusal with the state as given.
pub fn step(input: &[u8], st: WalkState) -> Answer
    ensures { answer_of result ≡ step epl input.now (state_of st) }
{
    if LONGEST < input.len() {
        return Answer::Refused(st, Refusal::InputTooLong, 0);
    }
    let at = st.place;
    if input.len() < at {
        return Answer::Refused(st, Refusal::StateOutside, at);
    }
    if at < st.pending {
        return Answer::Refused(st, Refusal::StateOutside, at);
    }
    answer_from(input, st)
}

// The first answer from a place within the input, or a refusal with the state as given. What answers nothing is passed
// within it. The end prints nothing: its state has the count of what is pending. That count may be any: with one more
// than there are, a print line that prints nothing is answered too, and the label index is built on that.
pub fn answer_from(input: &[u8], st: WalkState) -> Answer
    requires { (length input.now ≤ longest) × (st.place ≤ length input.now) × (st.pending ≤ 16777217) }
    ensures { answer_of result ≡ handing (state_of st) (answer epl (drop st.place input.now) st.place st.reference st.pending) }
{
    let mut at = st.place;
    let n = st.pending;
    let mut reference = st.reference;
    loop {
        match read_unit(&input[at..], at, reference) {
            Reading::End => {
                let end = WalkState {
                    place: at,
                    reference,
                    pending: n,
                };
                return Answer::End(end);
            }
            Reading::Fault(k) => {
                return Answer::Refused(st, k, at);
            }
            Reading::Passed(size, p) => {
                at += size;
                reference = p;
            }
            Reading::Cleared(size) => {
                return Answer::Clear(WalkState {
                    place: at + size,
                    reference: LabelPosition { x: 0, y: 0 },
                    pending: 0,
                });
            }
            Reading::Element(e, size) => {
                return Answer::Element(
                    WalkState {
                        place: at + size,
                        reference,
                        pending: n + 1,
                    },
                    e,
                );
            }
            Reading::Print(size, sets, copies) => {
                if 0 < n {
                    return Answer::Print(
                        WalkState {
                            place: at + size,
                            reference,
                            pending: 0,
                        },
                        Printed {
                            count: n,
                            counts: PrintCounts { sets, copies },
                        },
                    );
                }
                at += size;
            }
        }
    }
}
