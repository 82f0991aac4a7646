// One label from 203 to 300 dots.
ghost use Rattle.std.specs.Prelude.{length};
ghost use Rattle.dots_label.specs.Conversion.{conversion_by, conversion_of, Converts};
ghost use Rattle.dots_label.specs.Walked.{entry_drawn};

use crate::fill::fill;
use crate::plan::{answered, plan_entry, starting, to_fill};
use dots::element::Element300;
use label_index::entry::{LabelEntry, entry_or, no_entry};

// number 0: the list is filled, place is how many elements the label has, and sets and copies are its print's. Else a
// refusal: its number and its place.
#[repr(C)]
#[derive(Clone, Copy)]
pub struct Label300 {
    pub number: u32,
    pub place: usize,
    pub sets: i32,
    pub copies: i32,
}

// The label of the entry e with the number i, out of n entries.
pub(crate) fn convert_entry(
    input: &[u8],
    list: &mut [Element300],
    n: usize,
    i: usize,
    e: LabelEntry,
) -> Label300
    ensures { Converts list.new list.old (conversion_by (length list.old) (entry_drawn input.now n i e)) result }
{
    let p = plan_entry(input, n, i, e, list.len());
    fill(input, list, starting(p), to_fill(p));
    answered(p)
}

// The elements of the label with this number at 300 dots, from the start of the list; or a refusal that leaves the list
// as it came. Only the entry with this number is looked at.
pub fn to_300(
    input: &[u8],
    entries: &[LabelEntry],
    number: usize,
    list: &mut [Element300],
) -> Label300
    ensures { Converts list.new list.old (conversion_of input.now entries.now number (length list.old)) result }
{
    let e = entry_or(entries, number, no_entry());
    convert_entry(input, list, entries.len(), number, e)
}
