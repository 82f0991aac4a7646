// The elements of a label at 300 dots, one a step of the walk. What a loop that fills a list has to know of lists is in
// the crate `lent_lists`.
ghost use Rattle.std.specs.Prelude.{◌≡◌, ◌++◌, ◌≤◌, ◌<◌, length, drop};
ghost use Rattle.lent_lists.specs.Filled.{made};
ghost use Rattle.dots_label.specs.Walked.{next_of, WithinCursor};

use dots::element::{Element300, element_300};
use elements::walk_state::WalkState;
use structs::element::struct_of;
use walk::answer::Answer;
use walk::step::step;

// The element made last, the state behind it, and where the file is cut.
#[derive(Clone, Copy)]
pub struct Cursor {
    pub element: Element300,
    pub state: WalkState,
    pub last: usize,
}

// The next element, or the cursor as it is where there is none.
pub(crate) fn next(input: &[u8], c: Cursor) -> Cursor
    requires { WithinCursor input.now c }
    ensures { result ≡ next_of input.now c }
{
    let last = c.last;
    // By its fields: copied as one with the element, the cursor would be a call of memcpy, and the library calls
    // nothing.
    let from = c.state;
    let reference = from.reference;
    let st = WalkState {
        reference,
        pending: from.pending,
        place: from.place,
    };
    match step(&input[..last], st) {
        Answer::Element(state, e) => {
            let element = element_300(struct_of(e));
            Cursor {
                element,
                state,
                last,
            }
        }
        Answer::Clear(_) => c,
        Answer::Print(_, _) => c,
        Answer::End(_) => c,
        Answer::Refused(_, _, _) => c,
    }
}

fn element_of(c: Cursor) -> Element300
    ensures { result ≡ c.element }
{
    c.element
}

// The first n elements are made by a walk from start, and the rest stay.
pub(crate) fn fill(input: &[u8], list: &mut [Element300], start: Cursor, n: usize)
    requires { (n ≤ length list.old) × (0 < n → WithinCursor input.now start) }
    ensures { list.new ≡ made (next_of input.now) (λ c. c.element) n start ++ drop n list.old }
{
    let mut c = start;
    let mut i: usize = 0;
    while i < n {
        c = next(input, c);
        list[i] = element_of(c);
        i = i + 1;
    }
}
