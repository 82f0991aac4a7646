// The lines of frames, and how long a frame is.
ghost use Rattle.std.specs.Prelude.{◌≡◌, ◌+◌, ◌*◌, ◌≤◌, min, length};
ghost use Rattle.text.specs.Wrote.{Put};
ghost use Rattle.frame_bytes.specs.Frame.{frame_of, label_frame, pending_frame, refusal_frame};
ghost use Rattle.frame_bytes.specs.Hex.{line_of};
ghost use Rattle.frame_bytes.specs.Put.{PutHex};

use crate::kinds::{fields_len, put_fields};
use elements::plain::plain_of;
use elements::{LabelElement, PrintCounts};
use frame_bytes::data::{put_data, with_data};
use frame_bytes::fields::put_head;
use frame_bytes::hex::{put_byte, put_i32, put_lf, put_u32};

// The digits of an element's frame.
fn put_element(input: &[u8], out: &mut [u8], at: usize, e: LabelElement) -> usize
    requires { at + 2 * length (frame_of input.now e) ≤ length out.old }
    ensures { PutHex out.new out.old at (frame_of input.now e)
        (length (frame_of input.now e)) result }
{
    let p = plain_of(e);
    let position = p.position;
    let fields = p.fields;
    let data = p.data;
    let a = put_head(out, at, p.kind, position);
    let b = put_fields(out, a, fields);
    put_data(input, out, b, data)
}

// The line of an element's frame.
pub fn put_frame(input: &[u8], out: &mut [u8], at: usize, e: LabelElement) -> usize
    requires { at + length (line_of (frame_of input.now e)) ≤ length out.old }
    ensures { Put out.new out.old at (line_of (frame_of input.now e)) result }
{
    let a = put_element(input, out, at, e);
    put_lf(out, a)
}

// The line of a label: its element count, sets and copies.
pub fn put_label_frame(out: &mut [u8], at: usize, n: usize, counts: PrintCounts) -> usize
    requires { at + 27 ≤ length out.old }
    ensures { Put out.new out.old at (line_of (label_frame n counts)) result }
{
    let a = put_byte(out, at, 0);
    let b = put_u32(out, a, n);
    let c = put_i32(out, b, counts.sets);
    let d = put_i32(out, c, counts.copies);
    put_lf(out, d)
}

// The line of the count pending at the end.
pub fn put_pending(out: &mut [u8], at: usize, n: usize) -> usize
    requires { at + 11 ≤ length out.old }
    ensures { Put out.new out.old at (line_of (pending_frame n)) result }
{
    let a = put_byte(out, at, 254);
    let b = put_u32(out, a, n);
    put_lf(out, b)
}

// The line of a refusal.
pub fn put_refusal(out: &mut [u8], at: usize, number: u8, place: usize) -> usize
    requires { at + 13 ≤ length out.old }
    ensures { Put out.new out.old at (line_of (refusal_frame number place)) result }
{
    let a = put_byte(out, at, 255);
    let b = put_byte(out, a, number);
    let c = put_u32(out, b, place);
    put_lf(out, c)
}

// The length of an element's frame, 4294967295 at most.
pub fn frame_len(input: &[u8], e: LabelElement) -> usize
    ensures { result ≡ min 4294967295 (length (frame_of input.now e)) }
{
    let p = plain_of(e);
    let fields = p.fields;
    let data = p.data;
    with_data(9 + fields_len(fields), input, data)
}
