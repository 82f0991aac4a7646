// The static library that hosts link. Nothing is asked of a caller but that what it lends is its own for the call.
#![tactic(auto)]

ghost use Rattle.std.specs.Prelude.{◌≡◌, length};
ghost use Rattle.elements.specs.Given.{Fills};
ghost use Rattle.walk_theory.specs.Step as theory;
ghost use Rattle.grammar.specs.Epl.{epl};
ghost use Rattle.decoding.specs.Decoding as decoding;
ghost use Rattle.where_label.specs.Found.{inside_due, touching_due, nearest_due};
ghost use Rattle.structs.specs.Written.{given_flat, counted_flat, spot_flat};
ghost use Rattle.format.specs.Normalise as normalise;
ghost use Rattle.file_listing.specs.Listing as listing;
ghost use Rattle.label_index.specs.Plan.{Indexes, filling_of};
ghost use Rattle.joining.specs.Join.{Joins};
ghost use Rattle.label_opening.specs.Opened as opening;
ghost use Rattle.dots_label.specs.Conversion.{conversion_of, Converts};
ghost use Rattle.strict.specs.Verdict.{checked_of};
ghost use Rattle.strict.specs.Listing.{strict_due_of};
ghost use Rattle.elements.specs.Walk.{fresh};
ghost use Rattle.walk.specs.Steps.{state_of};
ghost use Rattle.structs.specs.Steps.{flat_of};
ghost use Rattle.writing_element.specs.Plain.{plain_due};
ghost use Rattle.writing_label.specs.Label.{plain_label_due, plain_label_due300};

use decoding::data::decode;
use elements::DataSpan;
use laddertick::{
    Checked, Element, Element300, Joined, Label300, LabelEntry, LabelPosition, Rectangle,
    WalkState, check, index, inside, join, list, nearest, normalise, open_label, start, step,
    strict_list, to_300, touching, write_label, write_label_300, write_plain,
};
use structs::answer::FlatAnswer;
use structs::steps::flat_step;
use structs::written::{Written, of_filled, of_found, of_indexed};

// The state before the first byte.
#[unsafe(no_mangle)]
pub extern "C" fn laddertick_start() -> WalkState
    ensures { result ≡ fresh }
{
    start()
}

// One step from any state: an element, a clear, a print, the end, or a refusal with the state as given.
#[unsafe(no_mangle)]
pub extern "C" fn laddertick_step(input: &[u8], walk: WalkState) -> FlatAnswer
    ensures { result ≡ flat_of (theory.step epl input.now (state_of walk)) }
{
    flat_step(step(input, walk))
}

// What the len bytes at start are decoded to, as far as the input goes, from the start of out; or a refusal that leaves
// out as it came.
#[unsafe(no_mangle)]
pub extern "C" fn laddertick_data(input: &[u8], start: usize, len: usize, out: &mut [u8]) -> Written
    ensures { Fills out.new out.old (decoding.due_of input.now (record { start = start; len = len })) (given_flat result) }
{
    of_filled(decode(input, DataSpan { start, len }, out))
}

// The listing of input's labels from the start of out, or a refusal that leaves out as it came.
#[unsafe(no_mangle)]
pub extern "C" fn laddertick_list(input: &[u8], out: &mut [u8]) -> Written
    ensures { Fills out.new out.old (listing.due_of input.now) (given_flat result) }
{
    of_filled(list(input, out))
}

// The normalised text of input from the start of out, or a refusal that leaves out as it came.
#[unsafe(no_mangle)]
pub extern "C" fn laddertick_normalise(input: &[u8], out: &mut [u8]) -> Written
    ensures { Fills out.new out.old (normalise.due_of input.now) (given_flat result) }
{
    of_filled(normalise(input, out))
}

// The well-site profile's verdict on input.
#[unsafe(no_mangle)]
pub extern "C" fn laddertick_check(input: &[u8]) -> Checked
    ensures { result ≡ checked_of input.now }
{
    check(input)
}

// The listing of input's labels under the profile, from the start of out, or a refusal that leaves out as it came.
#[unsafe(no_mangle)]
pub extern "C" fn laddertick_strict_list(input: &[u8], out: &mut [u8]) -> Written
    ensures { Fills out.new out.old (strict_due_of input.now) (given_flat result) }
{
    of_filled(strict_list(input, out))
}

// An entry for each label of input, in print order, from the start of the list; or a refusal that leaves the list as it
// came.
#[unsafe(no_mangle)]
pub extern "C" fn laddertick_index(input: &[u8], entries: &mut [LabelEntry]) -> Written
    ensures { Indexes entries.new entries.old (filling_of input.now (length entries.old)) (counted_flat result) }
{
    of_indexed(index(input, entries))
}

// The lines of the listing for the label with this number, from the start of out; or a refusal that leaves out as it
// came.
#[unsafe(no_mangle)]
pub extern "C" fn laddertick_open(
    input: &[u8],
    entries: &[LabelEntry],
    number: usize,
    out: &mut [u8],
) -> Written
    ensures { Fills out.new out.old (opening.due_of input.now entries.now number) (given_flat result) }
{
    of_filled(open_label(input, entries, number, out))
}

// The first file normalised, a line `N` and the second normalised, from the start of out; or a refusal that leaves out
// as it came, and which file was refused.
#[unsafe(no_mangle)]
pub extern "C" fn laddertick_join(first: &[u8], second: &[u8], out: &mut [u8]) -> Joined
    ensures { Joins out.new out.old first.now second.now result }
{
    join(first, second, out)
}

// The numbers of the elements of one label whose position lies in a rectangle, from the start of the list; or a refusal
// that leaves the list as it came.
#[unsafe(no_mangle)]
pub extern "C" fn laddertick_inside(
    input: &[u8],
    entries: &[LabelEntry],
    number: usize,
    r: Rectangle,
    list: &mut [usize],
) -> Written
    ensures { Fills list.new list.old (inside_due input.now entries.now number r) (given_flat result) }
{
    of_found(inside(input, entries, number, r, list))
}

// The numbers of the boxes and diagonals of one label whose own rectangle shares a point with another, likewise.
#[unsafe(no_mangle)]
pub extern "C" fn laddertick_touching(
    input: &[u8],
    entries: &[LabelEntry],
    number: usize,
    r: Rectangle,
    list: &mut [usize],
) -> Written
    ensures { Fills list.new list.old (touching_due input.now entries.now number r) (given_flat result) }
{
    of_found(touching(input, entries, number, r, list))
}

fn point(x: i32, y: i32) -> LabelPosition
    ensures { result ≡ record { x = x; y = y } }
{
    LabelPosition { x, y }
}

// The number of the element of one label whose position is nearest to a point; or a refusal.
#[unsafe(no_mangle)]
pub extern "C" fn laddertick_nearest(
    input: &[u8],
    entries: &[LabelEntry],
    number: usize,
    x: i32,
    y: i32,
) -> Written
    ensures { spot_flat result ≡ nearest_due input.now entries.now number (record { x = x; y = y }) }
{
    let q = point(x, y);
    of_found(nearest(input, entries, number, q))
}

// The elements of the label with this number at 300 dots an inch, from the start of the list; or a refusal that leaves
// the list as it came.
#[unsafe(no_mangle)]
pub extern "C" fn laddertick_to_300(
    input: &[u8],
    entries: &[LabelEntry],
    number: usize,
    list: &mut [Element300],
) -> Label300
    ensures { Converts list.new list.old (conversion_of input.now entries.now number (length list.old)) result }
{
    to_300(input, entries, number, list)
}

// The element as one command and its LF, from the start of out; or a refusal that leaves out as it came. A struct that
// no element has is 23.
#[unsafe(no_mangle)]
pub extern "C" fn laddertick_write(input: &[u8], element: Element, out: &mut [u8]) -> Written
    ensures { Fills out.new out.old (plain_due input.now element) (given_flat result) }
{
    of_filled(write_plain(input, element, out))
}

// A label as EPL: `N`, its elements and its print line, from the start of out; or a refusal that leaves out as it came.
#[unsafe(no_mangle)]
pub extern "C" fn laddertick_write_label(
    input: &[u8],
    elements: &[Element],
    sets: i32,
    copies: i32,
    out: &mut [u8],
) -> Written
    ensures { Fills out.new out.old (plain_label_due input.now elements.now (record { sets = sets; copies = copies })) (given_flat result) }
{
    of_filled(write_label(input, elements, sets, copies, out))
}

// The same of a label at 300 dots an inch.
#[unsafe(no_mangle)]
pub extern "C" fn laddertick_write_label_300(
    input: &[u8],
    elements: &[Element300],
    sets: i32,
    copies: i32,
    out: &mut [u8],
) -> Written
    ensures { Fills out.new out.old (plain_label_due300 input.now elements.now (record { sets = sets; copies = copies })) (given_flat result) }
{
    of_filled(write_label_300(input, elements, sets, copies, out))
}
