// One element as its command, into a lent buffer.
ghost use Rattle.std.specs.Prelude.{◌≡◌, ◌≤◌, length};
ghost use Rattle.elements.specs.Given.{Fills, given_of, text};
ghost use Rattle.spellings.specs.Due.{element_due};
ghost use Rattle.frame_bytes.specs.Frame.{part};
ghost use Rattle.writing_templates.specs.Fill.{fill};
ghost use Rattle.writing_templates.specs.Template.{template};
ghost use Rattle.writing_element.specs.Write.{which_box, which_diagonal, which_pdf, which_at, can_write, span_at, flat_due};

use elements::filled::Filled;
use elements::refusal::{LONGEST, Refusal};
use elements::{DataSpan, LabelElement};
use frame_bytes::data::part;
use structs::answer::Element;
use structs::element::struct_of;
use writing_limits::fine::{fine_bytes, fine_numbers, is_line, is_number};
use writing_templates::template::{command_len, put_command};

// The template of a box, of a diagonal, of PDF417.
fn which_box(e: Element) -> u8
    ensures { result ≡ which_box e }
{
    if is_line(e) { 17 } else { 2 }
}

fn which_diagonal(e: Element) -> u8
    ensures { result ≡ which_diagonal e }
{
    if e.direction == 1 { 3 } else { 18 }
}

fn which_pdf417(e: Element) -> u8
    ensures { result ≡ which_pdf e }
{
    if is_number(e, 6, -1) { 11 } else { 19 }
}

// The template of an element.
pub(crate) fn which_of(e: Element) -> u8
    ensures { result ≡ which_at e }
{
    let kind = e.kind;
    match kind {
        2 => which_box(e),
        3 => which_diagonal(e),
        11 => which_pdf417(e),
        _ => kind,
    }
}

// A line or a block yields it.
pub(crate) fn can_write(input: &[u8], e: Element, t: &[u8]) -> bool
    ensures { result ≡ can_write (length input.now) e t.now }
{
    fine_bytes(input.len(), e, t) & fine_numbers(e, t)
}

// The data of an element, as far as the input goes.
pub(crate) fn bytes_of(input: &[u8], e: Element) -> &[u8]
    ensures { result.now ≡ part input.now (span_at e) }
{
    part(
        input,
        DataSpan {
            start: e.data_start,
            len: e.data_len,
        },
    )
}

// Writes what there is room for.
fn put_sized(out: &mut [u8], e: Element, t: &[u8]) -> Filled
    requires { length t.now ≤ 16777216 }
    ensures { Fills out.new out.old (text (fill e t.now (template (which_at e))))
        (given_of result) }
{
    let w = which_of(e);
    let n = command_len(w, e, t.len());
    if out.len() < n {
        return Filled::Refused(Refusal::OutputTooShort, n);
    }
    put_command(out, 0, w, e, t);
    Filled::Bytes(n)
}

// A flat element: 14, 23, 15, or its command.
fn write_flat(input: &[u8], e: Element, out: &mut [u8]) -> Filled
    ensures { Fills out.new out.old (flat_due input.now e) (given_of result) }
{
    if LONGEST < input.len() {
        return Filled::Refused(Refusal::InputTooLong, 0);
    }
    let t = bytes_of(input, e);
    if can_write(input, e, t) {
        return put_sized(out, e, t);
    }
    Filled::Refused(Refusal::NotReadable, 0)
}

// One command and its LF, from the start of out.
pub fn write(input: &[u8], e: LabelElement, out: &mut [u8]) -> Filled
    ensures { Fills out.new out.old (element_due input.now e) (given_of result) }
{
    write_flat(input, struct_of(e), out)
}
