// UTF-8, decoded as `from_utf8_lossy` does. A part is a well-formed sequence, or a maximal subpart that is shown as ef
// bf bd.
// A byte is looked at a few times at most, whatever stands around it.
ghost use Rattle.std.specs.Prelude.{◌≡◌, ◌+◌, ◌≤◌, min, length};
ghost use Rattle.text.specs.Utf8.{within, need, low, high, whole, shown, decode, PartLen};
ghost use Rattle.text.specs.Wrote.{Wrote};

use crate::put::put_bytes;

// b is one of lo..hi.
fn within(lo: u8, hi: u8, b: u8) -> bool
    ensures { result ≡ within lo hi b }
{
    (lo <= b) & (b <= hi)
}

// The length of the sequences that begin with a, or 0 where none does.
#[tactic(auto, unfolding(text::specs::Utf8::need))]
fn need(a: u8) -> usize
    ensures { result ≡ need a }
{
    match a {
        0x00..=0x7f => 1,
        0xc2..=0xdf => 2,
        0xe0..=0xef => 3,
        0xf0..=0xf4 => 4,
        _ => 0,
    }
}

// The least byte that may stand second, after a.
#[tactic(auto, unfolding(text::specs::Utf8::low))]
fn low(a: u8) -> u8
    ensures { result ≡ low a }
{
    match a {
        0xe0 => 0xa0,
        0xf0 => 0x90,
        _ => 0x80,
    }
}

// The greatest.
#[tactic(auto, unfolding(text::specs::Utf8::high))]
fn high(a: u8) -> u8
    ensures { result ≡ high a }
{
    match a {
        0xed => 0x9f,
        0xf4 => 0x8f,
        _ => 0xbf,
    }
}

// The length of the part that stands first; 0 where s is empty.
#[tactic(auto, using(text::proofs::Utf8Steps::part_step, text::proofs::Utf8Steps::part_other))]
pub fn part_len(s: &[u8]) -> usize
    ensures { PartLen s.now result }
{
    let [a, ..] = s else {
        return 0;
    };
    let n = need(*a);
    let mut lo = low(*a);
    let mut hi = high(*a);
    let mut i = 1;
    let end = n.min(s.len());
    while i < end && within(lo, hi, s[i]) {
        lo = 0x80;
        hi = 0xbf;
        i += 1;
    }
    i
}

// The part p is a whole sequence.
pub fn is_whole(p: &[u8]) -> bool
    ensures { result ≡ whole p.now }
{
    match p {
        [] => false,
        [a, ..] => p.len() == need(*a),
    }
}

// What the part p is decoded to: itself, or U+FFFD.
fn shown(p: &[u8]) -> &[u8]
    ensures { result.now ≡ shown p.now }
{
    if is_whole(p) { p } else { b"\xef\xbf\xbd" }
}

// How many bytes that is.
pub fn shown_len(p: &[u8]) -> usize
    ensures { result ≡ length (shown p.now) }
{
    shown(p).len()
}

// How many bytes s is decoded to, or most where they are more.
pub fn decoded_len(s: &[u8], most: usize) -> usize
    ensures { result ≡ min most (length (decode s.now)) }
{
    let mut n = 0;
    let mut t = s;
    while !t.is_empty() {
        let (part, rest) = t.split_at(part_len(t));
        let m = shown_len(part);
        if most - n < m {
            return most;
        }
        n += m;
        t = rest;
    }
    n
}

// Stores what src is decoded to, where there is room for it.
pub fn write_decoded(src: &[u8], out: &mut [u8], at: usize)
    requires { at + length (decode src.now) ≤ length out.old }
    ensures { Wrote out.new out.old at (decode src.now) }
{
    let mut o = at;
    let mut t = src;
    while !t.is_empty() {
        let (part, rest) = t.split_at(part_len(t));
        let w = shown(part);
        put_bytes(w, out, o);
        o += w.len();
        t = rest;
    }
}
