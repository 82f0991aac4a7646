// Blanks at the ends of a slice.
ghost use Rattle.std.specs.Prelude.{◌≡◌, cond, reverse, take};
ghost use Rattle.text.specs.Blank.{is_ascii_blank, drop_while, drop_end, is_blank1, is_blank2, is_blank3, is_blank, back, size_of, trim_start, trim_end, trim};
ghost use Rattle.text.specs.Utf8.{within};

use byte_classes::class::is_ascii_blank;
use text::num::min;

// A Unicode blank of one byte: an ASCII blank, or 0b.
fn is_blank1(a: u8) -> bool
    ensures { result ≡ is_blank1 a }
{
    is_ascii_blank(a) | (a == 0x0b)
}

// A Unicode blank of two bytes: U+0085, U+00A0.
fn is_blank2(a: u8, b: u8) -> bool
    ensures { result ≡ is_blank2 a b }
{
    (a == 0xc2) & ((b == 0x85) | (b == 0xa0))
}

// A Unicode blank of three bytes: U+1680; U+2000..U+200A, U+2028, U+2029, U+202F; U+205F; U+3000.
fn is_blank3(a: u8, b: u8, c: u8) -> bool
    ensures { result ≡ is_blank3 a b c }
{
    ((a == 0xe1) & (b == 0x9a) & (c == 0x80))
        | ((a == 0xe2)
            & (b == 0x80)
            & (((0x80 <= c) & (c <= 0x8a)) | (c == 0xa8) | (c == 0xa9) | (c == 0xaf)))
        | ((a == 0xe2) & (b == 0x81) & (c == 0x9f))
        | ((a == 0xe3) & (b == 0x80) & (c == 0x80))
}

// The bytes of one character are a Unicode blank.
fn is_blank(w: &[u8]) -> bool
    ensures { result ≡ is_blank w.now }
{
    if w.len() == 1 {
        return is_blank1(w[0]);
    }
    if w.len() == 2 {
        return is_blank2(w[0], w[1]);
    }
    if w.len() == 3 {
        return is_blank3(w[0], w[1], w[2]);
    }
    false
}

// The first k bytes, or all.
pub fn first(s: &[u8], k: usize) -> &[u8]
    ensures { result.now ≡ take k s.now }
{
    let n = min(k, s.len());
    &s[..n]
}

// The last k bytes, or all.
fn last(s: &[u8], k: usize) -> &[u8]
    ensures { result.now ≡ reverse (take k (reverse s.now)) }
{
    let a = s.len() - min(k, s.len());
    &s[a..]
}

// The two and the three bytes at an end of a slice: the length of those that are a Unicode blank, or 0.
// Serving both ends it stays a call for the compiler, and the look at one byte before it is inlined.
fn wide_len(two: &[u8], three: &[u8]) -> usize
    ensures { result ≡ cond (is_blank two.now) 2 (cond (is_blank three.now) 3 0) }
{
    if is_blank(two) {
        return 2;
    }
    if is_blank(three) {
        return 3;
    }
    0
}

// A byte that neither is a blank nor starts or ends one.
fn is_plain(b: u8) -> bool
    ensures { result ≡ within 0x21 0x7f b }
{
    (0x21 <= b) & (b <= 0x7f)
}

// The length of the Unicode blank that s starts with, or 0. Most bytes are plain, so one look tells.
fn blank_len(s: &[u8]) -> usize
    ensures { result ≡ size_of is_blank s.now }
{
    if s.len() == 0 {
        return 0;
    }
    let b = s[0];
    if is_plain(b) {
        return 0;
    }
    if is_blank1(b) {
        return 1;
    }
    wide_len(first(s, 2), first(s, 3))
}

// The length of the one that s ends with, or 0.
fn end_blank_len(s: &[u8]) -> usize
    ensures { result ≡ size_of (back is_blank) (reverse s.now) }
{
    if s.len() == 0 {
        return 0;
    }
    let b = s[s.len() - 1];
    if is_plain(b) {
        return 0;
    }
    if is_blank1(b) {
        return 1;
    }
    wide_len(last(s, 2), last(s, 3))
}

pub fn trim_start(s: &[u8]) -> &[u8]
    ensures { result.now ≡ trim_start s.now }
{
    let mut t = s;
    loop {
        let k = blank_len(t);
        if k == 0 {
            return t;
        }
        t = &t[k..];
    }
}

pub fn trim_end(s: &[u8]) -> &[u8]
    ensures { result.now ≡ trim_end s.now }
{
    let mut t = s;
    loop {
        let k = end_blank_len(t);
        if k == 0 {
            return t;
        }
        let n = t.len() - k;
        t = &t[..n];
    }
}

// s without the Unicode blanks at both ends. Where both end bytes are plain there is nothing to take off.
pub fn trim(s: &[u8]) -> &[u8]
    ensures { result.now ≡ trim s.now }
{
    if s.len() == 0 {
        return s;
    }
    if is_plain(s[0]) & is_plain(s[s.len() - 1]) {
        return s;
    }
    trim_end(trim_start(s))
}

// s without the ASCII blanks that it starts with. None is above 20, which tells most bytes before their class is looked
// up.
pub fn trim_ascii_start(s: &[u8]) -> &[u8]
    ensures { result.now ≡ drop_while is_ascii_blank s.now }
{
    let mut i = 0;
    while i < s.len() && s[i] < 0x21 && is_ascii_blank(s[i]) {
        i += 1;
    }
    &s[i..]
}

// s without the ASCII blanks that it ends with.
pub fn trim_ascii_end(s: &[u8]) -> &[u8]
    ensures { result.now ≡ drop_end is_ascii_blank s.now }
{
    let mut n = s.len();
    while 0 < n && s[n - 1] < 0x21 && is_ascii_blank(s[n - 1]) {
        n -= 1;
    }
    &s[..n]
}
