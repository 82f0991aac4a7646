// The nearest element of one label, by one walk.
ghost use Rattle.std.specs.Prelude.{◌≡◌};
ghost use Rattle.where_element.specs.Found.{spot_of};
ghost use Rattle.where_label.specs.Found.{nearest_due};
ghost use Rattle.where_nearest.specs.Nearest.{better, nearest_first, nearest_entry};

use elements::LabelPosition;
use elements::refusal::Refusal;
use elements::walk_state::WalkState;
use label_index::entry::{LabelEntry, entry_or, no_entry};
use label_opening::start::{Start, start_of};
use walk::answer::Answer;
use walk::step::step;
use where_element::element::distance_of;
use where_element::found::Found;

// The nearest so far.
#[derive(Clone, Copy)]
pub struct Best {
    pub number: usize,
    pub distance: u64,
}

// Another: it is the best where it is the first, or nearer.
fn better(b: Best, number: usize, distance: u64) -> Best
    ensures { result ≡ better b number distance }
{
    if (number == 0) | (distance < b.distance) {
        return Best { number, distance };
    }
    b
}

// The nearest element of the first label from a state with nothing pending, nothing past its print being read; 21 where
// there is none, i being the entry's number. An element's number is how many are pending before it.
fn nearest_first(input: &[u8], st: WalkState, i: usize, q: LabelPosition) -> Found
    requires { st.pending ≡ 0 }
    ensures { spot_of result ≡ nearest_first q input.now st i }
{
    let mut here = st;
    let mut best = Best {
        number: 0,
        distance: 0,
    };
    loop {
        match step(input, here) {
            Answer::Element(next, e) => {
                best = better(best, here.pending, distance_of(e, q));
                here = next;
            }
            Answer::Clear(next) => {
                here = next;
            }
            Answer::Print(_, _) => {
                return Found::Number(best.number);
            }
            Answer::End(_) => {
                return Found::Refused(Refusal::NoSuchLabel, i);
            }
            Answer::Refused(_, k, p) => {
                return Found::Refused(k, p);
            }
        }
    }
}

// Of the label of the entry e with the number i, out of n entries.
pub(crate) fn nearest_entry(
    input: &[u8],
    n: usize,
    i: usize,
    e: LabelEntry,
    q: LabelPosition,
) -> Found
    ensures { spot_of result ≡ nearest_entry input.now n i e q }
{
    match start_of(input.len(), n, i, e) {
        Start::Denied(k, p) => Found::Refused(k, p),
        Start::At(st, last) => nearest_first(&input[..last], st, i, q),
    }
}

// The number of the element whose position is nearest to a point; or a refusal.
pub fn nearest(input: &[u8], entries: &[LabelEntry], number: usize, q: LabelPosition) -> Found
    ensures { spot_of result ≡ nearest_due input.now entries.now number q }
{
    let e = entry_or(entries, number, no_entry());
    nearest_entry(input, entries.len(), number, e, q)
}
