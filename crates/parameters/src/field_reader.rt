// A reader of a parameter part's fields: the part, and the place of the next field.
// The work stands in functions of a plain slice and a place; those of the reader only make it or take it apart. Commands
// are read through `params`, whose functions have plain parameters.
ghost use Rattle.std.specs.Prelude.{◌≡◌, ◌≤◌, length, drop};
ghost use Rattle.parameters.specs.Params.{number_from};

use byte_slices::scan::find;
use numbers::number::{Number, number_or, or_default};

// A number field's value, and the place of what follows its comma.
#[derive(Clone, Copy)]
pub struct Numbered {
    pub value: i32,
    pub next: usize,
}

// The number in the field at a place within s: blanks, a sign, many digits, or no number.
fn any_from(s: &[u8], at: usize, default: i32) -> Numbered
    requires { at ≤ length s.now }
    ensures { result ≡ number_from default s.now at }
{
    let end = at + find(&s[at..], b',');
    let value = number_or(&s[at..end], default);
    if end < s.len() {
        return Numbered {
            value,
            next: end + 1,
        };
    }
    Numbered { value, next: end }
}

// The number in the field at a place, or the default.
fn number_at_place(s: &[u8], at: usize, default: i32) -> Numbered
    ensures { result ≡ number_from default s.now at }
{
    if s.len() <= at {
        return Numbered {
            value: or_default(Number::Empty, default),
            next: s.len(),
        };
    }
    any_from(s, at, default)
}

// What stands from a place on: nothing past the end.
fn rest_at_place(s: &[u8], at: usize) -> &[u8]
    ensures { result.now ≡ drop at s.now }
{
    if s.len() < at {
        return &s[..0];
    }
    &s[at..]
}

// The parameter part of a command, and the place of the next field.
#[derive(Drop)]
pub struct FieldReader<'a> {
    pub src: &'a [u8],
    pub at: usize,
}

pub(crate) fn new<'a>(src: &'a [u8], at: usize) -> FieldReader<'a>
    ensures { (result.src ≡ src.entry) × (result.at ≡ at) }
{
    FieldReader { src, at }
}

// The number in the next field, or the default, and the place of what follows.
pub(crate) fn next_number<'a>(r: FieldReader<'a>, default: i32) -> Numbered
    ensures { result ≡ number_from default r.entry.src.now r.entry.at }
{
    number_at_place(r.src, r.at, default)
}

// What stands from the next field on.
pub(crate) fn rest<'a>(r: FieldReader<'a>) -> &'a [u8]
    ensures { result.now ≡ drop r.entry.at r.entry.src.now }
{
    rest_at_place(r.src, r.at)
}
