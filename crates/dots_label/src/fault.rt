// The first element of a label that it cannot be converted for.
ghost use Rattle.std.specs.Prelude.{◌≡◌};
ghost use Rattle.dots.specs.Element as one;
ghost use Rattle.dots_label.specs.Walked.{drawn_from, fault_of, fault_from};

use crate::line::line_start;
use dots::element::{ConvertedElement, convert_element};
use elements::LabelElement;
use elements::walk_state::WalkState;
use structs::answer::Element;
use structs::element::struct_of;
use walk::answer::Answer;
use walk::step::step;

// A refusal's number, and the first byte of its line; or 0, and how many elements the label has.
#[derive(Clone, Copy)]
pub(crate) struct Fault {
    pub number: u32,
    pub place: usize,
}

// 13 a position, 19 another length outside 32 bits; else 0.
fn outside(e: Element) -> u32
    ensures { result ≡ one.outside e }
{
    match convert_element(e) {
        ConvertedElement::Element(_) => 0,
        ConvertedElement::Position => 13,
        ConvertedElement::Size => 19,
    }
}

// 24 of a graphic, where one is looked for; else the number of a result.
fn number_for(e: LabelElement, graphic: bool) -> u32
    ensures { result ≡ fault_of graphic e }
{
    let f = struct_of(e);
    if graphic {
        if f.kind == 4 {
            return 24;
        }
        return 0;
    }
    outside(f)
}

// The first of the elements from st on that has a number; or how many elements are pending behind them.
pub(crate) fn first_fault(input: &[u8], st: WalkState, graphic: bool) -> Fault
    ensures { result ≡ fault_from graphic st.pending (drawn_from input.now st) }
{
    let mut here = st;
    loop {
        match step(input, here) {
            Answer::Element(next, e) => {
                let number = number_for(e, graphic);
                if number != 0 {
                    let place = line_start(input, here.place, next.place);
                    return Fault { number, place };
                }
                here = next;
            }
            Answer::Clear(_) => {
                return Fault {
                    number: 0,
                    place: here.pending,
                };
            }
            Answer::Print(_, _) => {
                return Fault {
                    number: 0,
                    place: here.pending,
                };
            }
            Answer::End(_) => {
                return Fault {
                    number: 0,
                    place: here.pending,
                };
            }
            Answer::Refused(_, _, _) => {
                return Fault {
                    number: 0,
                    place: here.pending,
                };
            }
        }
    }
}
