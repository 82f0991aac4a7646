// The parameter part of a command, field by field: a slice and the place of the next field, so that each byte is looked
// at once.
// A field reader is made at the place and passed on: to whoever calls these functions, their parameters are plain.
ghost use Rattle.std.specs.Prelude.{◌≡◌, true, cond, leb, length, drop};
ghost use Rattle.text.specs.Fields.{fields};
ghost use Rattle.text.specs.Utf8.{within};
ghost use Rattle.parameters.specs.Params.{alone, number_at, number_from, size_from, point_from, type_at, exactly_at};

use crate::field_reader::{Numbered, new, next_number, rest};
use byte_classes::class::is_digit;
use byte_slices::fields::first_field;
use elements::LabelPosition;
use numbers::blank::trim;
use numbers::int::max;
use numbers::number::{Number, or_default};

// The number in the field at a place, or the default.
pub fn field_from(s: &[u8], at: usize, default: i32) -> Numbered
    ensures { result ≡ number_from default s.now at }
{
    next_number(new(s, at), default)
}

// The number in the field at a place, or the default. A few digits up to a comma or the end, which most fields are, say
// their value as they stand. Small, so that it is inlined; the other fields are a call of `field_from`.
pub fn number_from(s: &[u8], at: usize, default: i32) -> Numbered
    ensures { result ≡ number_from default s.now at }
{
    if at < s.len() {
        let mut value: u32 = 0;
        let mut end = at;
        while value < 100000000 && is_digit(s[end]) {
            value = value * 10 + (s[end] as u32) - 48;
            end += 1;
            if end == s.len() {
                return Numbered {
                    value: value as i32,
                    next: end,
                };
            }
            if s[end] == b',' {
                return Numbered {
                    value: value as i32,
                    next: end + 1,
                };
            }
        }
    }
    field_from(s, at, default)
}

// The number in the first field, or the default. Where s is empty, as fields of hostile files are, its field is told at
// once. Small, so that it is inlined.
pub fn first_number(s: &[u8], default: i32) -> i32
    ensures { result ≡ number_at default s.now }
{
    if s.len() == 0 {
        return or_default(Number::Empty, default);
    }
    number_from(s, 0, default).value
}

// The number in the field at a place, or the default, where the least value is 1.
pub fn size_from(s: &[u8], at: usize, default: i32) -> Numbered
    ensures { result ≡ size_from default s.now at }
{
    let n = number_from(s, at, default);
    Numbered {
        value: max(n.value, 1),
        next: n.next,
    }
}

// x and y in two fields, and the place of what follows.
#[derive(Clone, Copy)]
pub struct Pointed {
    pub point: LabelPosition,
    pub next: usize,
}

pub fn point_from(s: &[u8], at: usize) -> Pointed
    ensures { result ≡ point_from s.now at }
{
    let x = number_from(s, at, 0);
    let y = number_from(s, x.next, 0);
    Pointed {
        point: LabelPosition {
            x: x.value,
            y: y.value,
        },
        next: y.next,
    }
}

// What stands from a place on: nothing past the end.
pub fn rest_from(s: &[u8], at: usize) -> &[u8]
    ensures { result.now ≡ drop at s.now }
{
    rest(new(s, at))
}

// The first field, its blanks off.
fn type_at(s: &[u8]) -> &[u8]
    ensures { result.now ≡ type_at s.now }
{
    trim(first_field(s))
}

// A byte that is neither a comma nor part of a blank.
fn is_mark(b: u8) -> bool
    ensures { result ≡ within 0x2d 0x7f b }
{
    (0x2d <= b) & (b <= 0x7f)
}

// The first field is one byte, neither a comma nor part of a blank.
fn is_alone(s: &[u8]) -> bool
    ensures { result ≡ alone s.now }
{
    if s.len() == 0 {
        return false;
    }
    if s.len() == 1 {
        return is_mark(s[0]);
    }
    is_mark(s[0]) & (s[1] == b',')
}

// The first field, its blanks off, is exactly the byte b.
fn is_field(s: &[u8], b: u8) -> bool
    ensures { result ≡ exactly_at b s.now }
{
    if is_alone(s) {
        return s[0] == b;
    }
    let t = type_at(s);
    if t.len() == 1 { t[0] == b } else { false }
}

// The first field, its blanks off, is exactly the byte b. A last field of one byte, which most are, is told at once.
// Small, so that it is inlined;
// the other fields are a call of `is_field`.
pub fn is_exactly(s: &[u8], b: u8) -> bool
    ensures { result ≡ exactly_at b s.now }
{
    if s.len() != 1 {
        return is_field(s, b);
    }
    if is_mark(s[0]) {
        return s[0] == b;
    }
    is_field(s, b)
}

// At least n fields. Nothing behind the comma that opens the n-th is looked at.
pub fn has_fields(s: &[u8], n: usize) -> bool
    ensures { result ≡ leb n (length (fields s.now)) }
{
    let mut wanted = n;
    let mut i = 0;
    while i < s.len() && 1 < wanted {
        if s[i] == b',' {
            wanted -= 1;
        }
        i += 1;
    }
    wanted <= 1
}

// At least n fields. Where a reader of fields has seen that something stands behind n - 1 commas they are not counted.
pub fn reaches(seen: bool, s: &[u8], n: usize) -> bool
    ensures { result ≡ cond seen true (leb n (length (fields s.now))) }
{
    if seen {
        return true;
    }
    has_fields(s, n)
}

// s without its first byte, if it has one.
pub fn tail(s: &[u8]) -> &[u8]
    ensures { result.now ≡ drop 1 s.now }
{
    if s.len() == 0 {
        return s;
    }
    &s[1..]
}

// s without its first two bytes, as far as it has them.
pub fn tail_two(s: &[u8]) -> &[u8]
    ensures { result.now ≡ drop 2 s.now }
{
    if s.len() < 2 {
        return &s[..0];
    }
    &s[2..]
}
