// The entries of a file's labels, in print order. What a loop that fills a list has to know of lists is in the crate
// `lent_lists`.
ghost use Rattle.std.specs.Prelude.{◌≡◌, ◌++◌, ◌≤◌, ◌<◌, length, drop, get_or};
ghost use Rattle.lent_lists.specs.Filled.{made};
ghost use Rattle.label_index.specs.Entries.{next_of, WithinCursor, no_entry};

use crate::glance::pass_told;
use elements::LabelPosition;
use elements::walk_state::WalkState;
use walk::answer::Answer;
use walk::step::answer_from;

// Where a label stands in the file: from just behind the print line before it, or 0, to just behind its own; how many
// elements it has; the reference point at its first place.
#[repr(C)]
#[derive(Clone, Copy)]
pub struct LabelEntry {
    pub first: usize,
    pub last: usize,
    pub count: usize,
    pub reference: LabelPosition,
}

// The entry made last, and the reference behind its print line.
#[derive(Clone, Copy)]
pub struct Cursor {
    pub entry: LabelEntry,
    pub reference: LabelPosition,
}

// The next label's entry, or the cursor as it is where there is none. The walk's pending count is one too many, so that
// every print line is answered, one that prints nothing too: an entry starts behind it.
pub(crate) fn next(input: &[u8], c: Cursor) -> Cursor
    requires { WithinCursor input.now c }
    ensures { result ≡ next_of input.now c }
{
    let made = c.entry;
    let mut first = made.last;
    let mut reference = c.reference;
    let mut here = WalkState {
        reference,
        pending: 1,
        place: first,
    };
    loop {
        match answer_from(input, pass_told(input, here)) {
            Answer::Element(next, _) => {
                here = next;
            }
            Answer::Clear(next) => {
                let r = next.reference;
                here = WalkState {
                    reference: r,
                    pending: 1,
                    place: next.place,
                };
            }
            Answer::Print(next, p) => {
                let last = next.place;
                let r = next.reference;
                if 1 < p.count {
                    return Cursor {
                        entry: LabelEntry {
                            first,
                            last,
                            count: p.count - 1,
                            reference,
                        },
                        reference: r,
                    };
                }
                first = last;
                reference = r;
                here = WalkState {
                    reference: r,
                    pending: 1,
                    place: last,
                };
            }
            Answer::End(_) => {
                return c;
            }
            Answer::Refused(_, _, _) => {
                return c;
            }
        }
    }
}

fn entry_of(c: Cursor) -> LabelEntry
    ensures { result ≡ c.entry }
{
    c.entry
}

// The first n entries are made by a walk from start, and the rest stay.
pub(crate) fn fill(input: &[u8], entries: &mut [LabelEntry], start: Cursor, n: usize)
    requires { (n ≤ length entries.old) × (0 < n → WithinCursor input.now start) }
    ensures { entries.new ≡ made (next_of input.now) (λ c. c.entry) n start ++ drop n entries.old }
{
    let mut c = start;
    let mut i: usize = 0;
    while i < n {
        c = next(input, c);
        entries[i] = entry_of(c);
        i = i + 1;
    }
}

// The entry at i, or none where i is past the end.
pub fn entry_or(entries: &[LabelEntry], i: usize, none: LabelEntry) -> LabelEntry
    ensures { result ≡ get_or entries.now i none }
{
    if i < entries.len() {
        return entries[i];
    }
    none
}

// An entry of nothing.
pub fn no_entry() -> LabelEntry
    ensures { result ≡ no_entry }
{
    LabelEntry {
        first: 0,
        last: 0,
        count: 0,
        reference: LabelPosition { x: 0, y: 0 },
    }
}
