// Number fields: an optional sign and digits, of any length. What a field held, its default and its least value
// (`int::max`) are apart.
ghost use Rattle.std.specs.Prelude.{◌≡◌, ◌≤◌, min, pos, neg_ℤ};
ghost use Rattle.std.proofs.Math.Option.{some};
ghost use Rattle.numbers.specs.Number.{digits_of, capped, signed, number_spelled, field_number, number_or, field_or};

use crate::blank::trim;
use byte_classes::class::{is_digit, is_sign};

// What a field held. Its form comes before its range: 99999999999x is no number, 99999999999 is one beyond 32 bits.
#[derive(Clone, Copy)]
pub enum Number {
    Value(i32),
    // Nothing but blanks.
    Empty,
    // Something else than an optional sign and digits: 12O, or a sign alone.
    NoNumber,
    // A number outside signed 32 bits.
    Beyond,
}

// The value of digits.
#[derive(Clone, Copy)]
enum Magnitude {
    // At most 2^31.
    Upto(u64),
    // More than that.
    Over,
    // A byte is no digit, or there is none.
    Bad,
}

// The smaller.
fn least(a: u64, b: u64) -> u64
    ensures { result ≡ min a b }
{
    if a < b { a } else { b }
}

// Every byte of s is looked at, since one that is no digit may stand last. A value above 2^31 is kept as 2^31 + 1.
fn digits(s: &[u8]) -> Magnitude
    ensures { result ≡ capped (digits_of s.now) }
{
    if s.len() == 0 {
        return Magnitude::Bad;
    }
    let mut v: u64 = 0;
    let mut i = 0;
    while i < s.len() {
        let c = s[i];
        if !is_digit(c) {
            return Magnitude::Bad;
        }
        let w = v * 10 + ((c - 48) as u64);
        v = least(w, 2147483649);
        i += 1;
    }
    if 2147483648 < v {
        return Magnitude::Over;
    }
    Magnitude::Upto(v)
}

// -v
fn minus(v: u64) -> i32
    requires { v ≤ 2147483648 }
    ensures { result ≡ neg_ℤ (pos v) }
{
    (0 - (v as i64)) as i32
}

// v with its sign.
fn with_sign(neg: bool, v: u64) -> Number
    requires { v ≤ 2147483648 }
    ensures { result ≡ signed neg (some v) }
{
    if neg {
        return Number::Value(minus(v));
    }
    if v < 2147483648 {
        Number::Value(v as i32)
    } else {
        Number::Beyond // 2147483648
    }
}

fn after_sign(neg: bool, s: &[u8]) -> Number
    ensures { result ≡ signed neg (digits_of s.now) }
{
    match digits(s) {
        Magnitude::Upto(v) => with_sign(neg, v),
        Magnitude::Over => Number::Beyond,
        Magnitude::Bad => Number::NoNumber,
    }
}

// What s holds, with no blanks.
pub fn parse(s: &[u8]) -> Number
    ensures { result ≡ number_spelled s.now }
{
    if s.len() == 0 {
        return Number::Empty;
    }
    let c = s[0];
    if is_sign(c) {
        return after_sign(c == 45, &s[1..]);
    }
    after_sign(false, s)
}

// What a field held: its Unicode blanks off first.
pub fn field_number(f: &[u8]) -> Number
    ensures { result ≡ field_number f.now }
{
    parse(trim(f))
}

// The value, or the default.
pub fn or_default(n: Number, default: i32) -> i32
    ensures { result ≡ number_or default n }
{
    match n {
        Number::Value(v) => v,
        Number::Empty => default,
        Number::NoNumber => default,
        Number::Beyond => default,
    }
}

// A number field: its value, or the default where it is none. Beyond 32 bits is the default too, not the nearest value.
pub fn number_or(f: &[u8], default: i32) -> i32
    ensures { result ≡ field_or default f.now }
{
    or_default(field_number(f), default)
}
