// The data of an element: where it stands in the input, its frame's length and bytes.
ghost use Rattle.std.specs.Prelude.{◌≡◌, ◌+◌, ◌*◌, ◌≤◌, min, length};
ghost use Rattle.text.specs.Utf8.{decode};
ghost use Rattle.frame_bytes.specs.Frame.{part, decoded, data_bytes};
ghost use Rattle.elements.specs.declared.plain.Data.TheVariants as span;
ghost use Rattle.frame_bytes.specs.Put.{PutHex};

use crate::hex::{put_decoded, put_sized, put_u32};
use byte_slices::utf8::decoded_len;
use elements::DataSpan;
use elements::plain::Data;
use numbers::blank::first;

// The bytes at d, as far as the input goes.
pub fn part(input: &[u8], d: DataSpan) -> &[u8]
    ensures { result.now ≡ part input.now d }
{
    let start = d.start.min(input.len());
    first(&input[start..], d.len)
}

// Decoded data: its length and then its bytes.
fn put_decoded_data(input: &[u8], out: &mut [u8], at: usize, d: DataSpan) -> usize
    requires { at + 2 * (4 + length (decode (part input.now d))) ≤ length out.old }
    ensures { PutHex out.new out.old at (decoded input.now d)
        (4 + length (decode (part input.now d))) result }
{
    let p = part(input, d);
    let n = decoded_len(p, out.len());
    let a = put_u32(out, at, n);
    put_decoded(p, out, a)
}

// A payload: its total, and then itself with its length.
fn put_payload(input: &[u8], out: &mut [u8], at: usize, d: DataSpan) -> usize
    requires { at + 2 * (8 + length (part input.now d)) ≤ length out.old }
    ensures { PutHex out.new out.old at (data_bytes input.now (span.Payload d))
        (8 + length (part input.now d)) result }
{
    let payload = part(input, d);
    let a = put_u32(out, at, payload.len());
    put_sized(payload, out, a)
}

pub fn put_data(input: &[u8], out: &mut [u8], at: usize, d: Data) -> usize
    requires { at + 2 * length (data_bytes input.now d) ≤ length out.old }
    ensures { PutHex out.new out.old at (data_bytes input.now d)
        (length (data_bytes input.now d)) result }
{
    match d {
        Data::NoData => at,
        Data::Payload(span) => put_payload(input, out, at, span),
        Data::Decoded(span) => put_decoded_data(input, out, at, span),
    }
}

// The length of decoded data and fixed bytes more, 4294967295 at most.
fn with_decoded(fixed: usize, input: &[u8], d: DataSpan) -> usize
    requires { fixed ≤ 4294967295 }
    ensures { result ≡ min 4294967295 (fixed + length (decode (part input.now d))) }
{
    fixed + decoded_len(part(input, d), 4294967295 - fixed)
}

// The length of data as it stands and fixed bytes more, 4294967295 at most.
fn with_payload(fixed: usize, input: &[u8], d: DataSpan) -> usize
    requires { fixed ≤ 4294967295 }
    ensures { result ≡ min 4294967295 (fixed + length (part input.now d)) }
{
    fixed + part(input, d).len().min(4294967295 - fixed)
}

// The length of a frame of data and fixed bytes more, 4294967295 at most.
pub fn with_data(fixed: usize, input: &[u8], d: Data) -> usize
    requires { fixed ≤ 39 }
    ensures { result ≡ min 4294967295 (fixed + length (data_bytes input.now d)) }
{
    match d {
        Data::NoData => fixed,
        Data::Payload(span) => with_payload(fixed + 8, input, span),
        Data::Decoded(span) => with_decoded(fixed + 4, input, span),
    }
}
