// The parameters of `b` behind its type: a letter and its value, a run of digits or one letter, several in a field.
// A comma is neither letter nor digit, so that the fields need no splitting. One pass takes what every type asks for.
ghost use Rattle.std.specs.Prelude.{◌≡◌, true, ◌+◌, ◌-◌, ◌*◌, ◌<◌, ◌≤◌, length, get_or};
ghost use Rattle.text.specs.Class.{is_digit};
ghost use Rattle.numbers.specs.Number.{number_or};
ghost use Rattle.barcodes_2d.specs.Options.{clamped, clamped_or, options_of};
ghost use Rattle.barcodes_2d.specs.OptionSteps.{cap, ValueAt, number_over, level_over, taken};
ghost use Rattle.barcodes_2d.specs.OptionSteps.{no_options, all_taken, number_of};

use byte_classes::class::{is_digit, is_letter};
use numbers::int::{max, min};
use numbers::number::{Number, or_default};

// Which values of a parameter count: the definitions' word for the three rules that `with_option` follows.
#[derive(Clone, Copy)]
pub enum Wanted {
    Any,
    // A number within 32 bits.
    Number,
    // One of the letters L, M, Q, H.
    Level,
}

// What a value held, in one number, which the compiler keeps in a register: a value has no sign, so that all from 2^31
// on are free for the answers that are no value.
pub const BEYOND: u32 = 2147483648;

pub const NO_NUMBER: u32 = 2147483649;

pub const EMPTY: u32 = 2147483650;

// The answer of the number reader that n stands for.
fn told(n: u32) -> Number
    ensures { result ≡ number_of n }
{
    if n < BEYOND {
        return Number::Value(n as i32);
    }
    if n == BEYOND {
        return Number::Beyond;
    }
    if n == NO_NUMBER {
        return Number::NoNumber;
    }
    Number::Empty
}

// The value of a letter: what it held; its byte where it is one byte, else 0; and the place behind it.
#[derive(Clone, Copy)]
pub struct Value {
    pub number: u32,
    pub alone: u8,
    pub next: usize,
}

// One digit more, at most 2^31.
fn with_digit(v: u64, b: u8) -> u64
    requires { (v ≤ 2147483648) × (is_digit b ≡ true) }
    ensures { result ≡ cap (v * 10 + (b - 48)) }
{
    let w = v * 10 + ((b - 48) as u64);
    if w < 2147483648 { w } else { 2147483648 }
}

// The digits from a place on, where one stands.
fn digits_from(s: &[u8], from: usize) -> Value
    requires { (from < length s.now) × (is_digit (get_or s.now from 0) ≡ true) }
    ensures { ValueAt s.now from result }
{
    let first = s[from];
    let mut v: u64 = (first - 48) as u64;
    let mut end = from + 1;
    while end < s.len() && is_digit(s[end]) {
        v = with_digit(v, s[end]);
        end += 1;
    }
    let alone = if end == from + 1 { first } else { 0 };
    Value {
        number: v as u32,
        alone,
        next: end,
    }
}

// The value that stands at a place, behind its letter.
fn value_from(s: &[u8], from: usize) -> Value
    requires { from ≤ length s.now }
    ensures { ValueAt s.now from result }
{
    if from < s.len() {
        let b = s[from];
        if is_digit(b) {
            return digits_from(s, from);
        }
        if is_letter(b) {
            return Value {
                number: NO_NUMBER,
                alone: b,
                next: from + 1,
            };
        }
    }
    Value {
        number: EMPTY,
        alone: 0,
        next: from,
    }
}

// What counts of each letter that some type has; a letter has one rule in every type, `e` one for Aztec and one for QR.
// Of `c`, `l`, `m`, `r` what the last one held; of the others the last number. The last level letter, or 0. Whether the
// last `t` is 1.
#[derive(Clone, Copy)]
pub struct Options {
    pub c: u32,
    pub d: u32,
    pub e: u32,
    pub h: u32,
    pub l: u32,
    pub m: u32,
    pub o: u32,
    pub r: u32,
    pub s: u32,
    pub x: u32,
    pub y: u32,
    pub level: u8,
    pub truncate: bool,
}

// The number, or the one before it.
fn number_over(n: u32, before: u32) -> u32
    ensures { result ≡ number_over n before }
{
    if n < BEYOND { n } else { before }
}

// The letter a, where it is a level; else the one before it.
fn level_over(a: u8, before: u8) -> u8
    ensures { result ≡ level_over a before }
{
    if (a == b'L') | (a == b'M') | (a == b'Q') | (a == b'H') {
        a
    } else {
        before
    }
}

// With the parameter b: its number n, its byte a.
fn with_option(k: Options, b: u8, n: u32, a: u8) -> Options
    ensures { result ≡ taken k b n a }
{
    let mut p = k;
    match b {
        b'c' => {
            p.c = n;
        }
        b'd' => {
            p.d = number_over(n, k.d);
        }
        b'e' => {
            p.e = number_over(n, k.e);
            p.level = level_over(a, k.level);
        }
        b'h' => {
            p.h = number_over(n, k.h);
        }
        b'l' => {
            p.l = n;
        }
        b'm' => {
            p.m = n;
        }
        b'o' => {
            p.o = number_over(n, k.o);
        }
        b'r' => {
            p.r = n;
        }
        b's' => {
            p.s = number_over(n, k.s);
        }
        b't' => {
            p.truncate = a == b'1';
        }
        b'x' => {
            p.x = number_over(n, k.x);
        }
        b'y' => {
            p.y = number_over(n, k.y);
        }
        _ => {}
    }
    p
}

fn no_options() -> Options
    ensures { result ≡ no_options }
{
    Options {
        c: EMPTY,
        d: EMPTY,
        e: EMPTY,
        h: EMPTY,
        l: EMPTY,
        m: EMPTY,
        o: EMPTY,
        r: EMPTY,
        s: EMPTY,
        x: EMPTY,
        y: EMPTY,
        level: 0,
        truncate: false,
    }
}

// What the parameters s say, in one pass.
pub(crate) fn options_of(s: &[u8]) -> Options
    ensures { result ≡ all_taken no_options (options_of s.now) }
{
    let mut o = no_options();
    let mut at = 0;
    while at < s.len() {
        let b = s[at];
        at += 1;
        if is_letter(b) {
            let v = value_from(s, at);
            o = with_option(o, b, v.number, v.alone);
            at = v.next;
        }
    }
    o
}

// The number, or the default where there is none.
pub(crate) fn number_or(n: u32, default: i32) -> i32
    ensures { result ≡ number_or default (number_of n) }
{
    or_default(told(n), default)
}

// v, or the nearest of lo and hi.
pub(crate) fn clamp(v: i32, lo: i32, hi: i32) -> i32
    ensures { result ≡ clamped lo hi v }
{
    min(max(v, lo), hi)
}

// The number within lo to hi: the default, as it is, where there is none.
pub(crate) fn clamped_or(n: u32, default: i32, lo: i32, hi: i32) -> i32
    ensures { result ≡ clamped_or default lo hi (number_of n) }
{
    match told(n) {
        Number::Value(v) => clamp(v, lo, hi),
        Number::Empty => default,
        Number::NoNumber => default,
        Number::Beyond => default,
    }
}
