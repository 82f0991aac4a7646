// Hexadecimal digits into a lent buffer, two for each byte.
ghost use Rattle.std.specs.Prelude.{◌∷◌, [], ◌≡◌, ◌+◌, ◌*◌, ◌<◌, ◌≤◌, length};
ghost use Rattle.text.specs.Utf8.{shown, decode};
ghost use Rattle.text.specs.Wrote.{Put};
ghost use Rattle.frame_bytes.specs.Frame.{be32, number, float, sized};
ghost use Rattle.frame_bytes.specs.Hex.{digit};
ghost use Rattle.frame_bytes.specs.Put.{PutHex};

use byte_slices::utf8::{is_whole, part_len};

// The digit of n.
fn hex_digit(n: u8) -> u8
    requires { n < 16 }
    ensures { result ≡ digit n }
{
    if n < 10 { b'0' + n } else { b'a' + (n - 10) }
}

pub fn put_byte(out: &mut [u8], at: usize, b: u8) -> usize
    requires { at + 2 ≤ length out.old }
    ensures { PutHex out.new out.old at (b ∷ []) 1 result }
{
    out[at] = hex_digit(b / 16);
    out[at + 1] = hex_digit(b % 16);
    at + 2
}

// The last 32 bits of v, as four bytes.
pub fn put_u32(out: &mut [u8], at: usize, v: usize) -> usize
    requires { at + 8 ≤ length out.old }
    ensures { PutHex out.new out.old at (be32 v) 4 result }
{
    let a = put_byte(out, at, (v / 16777216 % 256) as u8);
    let b = put_byte(out, a, (v / 65536 % 256) as u8);
    let c = put_byte(out, b, (v / 256 % 256) as u8);
    put_byte(out, c, (v % 256) as u8)
}

pub fn put_i32(out: &mut [u8], at: usize, v: i32) -> usize
    requires { at + 8 ≤ length out.old }
    ensures { PutHex out.new out.old at (number v) 4 result }
{
    let bits = numbers::int::bits(v);
    put_u32(out, at, bits as usize)
}

pub fn put_f64(out: &mut [u8], at: usize, x: f64) -> usize
    requires { at + 16 ≤ length out.old }
    ensures { PutHex out.new out.old at (float x) 8 result }
{
    let bits = numbers::float::bits(x) as usize;
    let a = put_u32(out, at, bits / 4294967296);
    put_u32(out, a, bits)
}

pub(crate) fn put_bytes(src: &[u8], out: &mut [u8], at: usize) -> usize
    requires { at + 2 * length src.now ≤ length out.old }
    ensures { PutHex out.new out.old at src.now (length src.now) result }
{
    let mut o = at;
    for b in src {
        o = put_byte(out, o, *b);
    }
    o
}

// The length of src and then its bytes.
pub(crate) fn put_sized(src: &[u8], out: &mut [u8], at: usize) -> usize
    requires { at + 2 * (4 + length src.now) ≤ length out.old }
    ensures { PutHex out.new out.old at (sized src.now) (4 + length src.now) result }
{
    let a = put_u32(out, at, src.len());
    put_bytes(src, out, a)
}

// What the part p is decoded to.
pub(crate) fn put_part(p: &[u8], out: &mut [u8], at: usize) -> usize
    requires { at + 2 * length (shown p.now) ≤ length out.old }
    ensures { PutHex out.new out.old at (shown p.now) (length (shown p.now)) result }
{
    if is_whole(p) {
        put_bytes(p, out, at)
    } else {
        put_bytes(b"\xef\xbf\xbd", out, at)
    }
}

// What src is decoded to.
pub(crate) fn put_decoded(src: &[u8], out: &mut [u8], at: usize) -> usize
    requires { at + 2 * length (decode src.now) ≤ length out.old }
    ensures { PutHex out.new out.old at (decode src.now) (length (decode src.now)) result }
{
    let mut o = at;
    let mut t = src;
    while !t.is_empty() {
        let k = part_len(t);
        o = put_part(&t[..k], out, o);
        t = &t[k..];
    }
    o
}

// The LF that ends a line.
pub fn put_lf(out: &mut [u8], at: usize) -> usize
    requires { at + 1 ≤ length out.old }
    ensures { Put out.new out.old at (10 ∷ []) result }
{
    out[at] = 10;
    at + 1
}
