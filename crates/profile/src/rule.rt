// Rules of number fields. A rule is a letter: `R` rotation, `F` font, `H` and `V` multipliers, `W` the width of `GW`; a
// small letter takes every value, `-` stands for a field that is no number.
ghost use Rattle.std.specs.Prelude.{◌≡◌, ◌≤◌, length};
ghost use Rattle.profile.specs.Profile.{number_of, kind_of, between, allowed, judged, ruled, by_rules, if_counted};

use byte_slices::scan::{find, line_size};
use numbers::int::equal;
use numbers::number::{Number, field_number};

// What a field held that the profile objects to.
#[derive(Clone, Copy)]
pub enum Held {
    Empty,
    NoNumber,
    Beyond,
    Outside,
}

impl Held {
    // 17 a field with no value, 18 a value outside the profile.
    pub fn number(self) -> u32
        ensures { result ≡ number_of self }
    {
        match self {
            Held::Empty => 17,
            Held::NoNumber => 17,
            Held::Beyond => 17,
            Held::Outside => 18,
        }
    }

    // What it held: 1 nothing, 2 no number, 3 one beyond 32 bits, 4 a value outside the profile.
    pub fn kind(self) -> u32
        ensures { result ≡ kind_of self }
    {
        match self {
            Held::Empty => 1,
            Held::NoNumber => 2,
            Held::Beyond => 3,
            Held::Outside => 4,
        }
    }
}

// What the profile has against a field, or a unit: nothing, or what the field, counted from 1, held.
#[derive(Clone, Copy)]
pub enum Objection {
    Fine,
    To(u32, Held),
}

fn between(lo: i32, hi: i32, z: i32) -> bool
    ensures { result ≡ between lo hi z }
{
    (lo <= z) & (z <= hi)
}

// The value itself, before its least value.
fn allowed(q: u8, z: i32) -> bool
    ensures { result ≡ allowed q z }
{
    match q {
        b'R' => between(0, 3, z),
        b'F' => between(1, 5, z),
        b'H' => between(1, 6, z) | equal(z, 8),
        b'V' => between(1, 9, z),
        b'W' => 1 <= z,
        _ => true,
    }
}

// What the k-th field held, by a rule.
fn judged(k: u32, q: u8, n: Number) -> Objection
    ensures { result ≡ judged k q n }
{
    match n {
        Number::Value(z) => {
            if allowed(q, z) {
                Objection::Fine
            } else {
                Objection::To(k, Held::Outside)
            }
        }
        Number::Empty => Objection::To(k, Held::Empty),
        Number::NoNumber => Objection::To(k, Held::NoNumber),
        Number::Beyond => Objection::To(k, Held::Beyond),
    }
}

// The k-th field by its rule.
pub(crate) fn ruled(k: u32, q: u8, f: &[u8]) -> Objection
    ensures { result ≡ ruled k q f.now }
{
    if q == b'-' {
        return Objection::Fine;
    }
    judged(k, q, field_number(f))
}

// The fields of s, one after the other, by their rules: the first objection.
pub(crate) fn by_rules(rules: &[u8], s: &[u8]) -> Objection
    requires { length rules.now ≤ 7 }
    ensures { result ≡ by_rules rules.now s.now }
{
    let mut t = s;
    let mut k: u32 = 0;
    while (k as usize) < rules.len() {
        let n = find(t, b',');
        match ruled(k + 1, rules[k as usize], &t[..n]) {
            Objection::Fine => {
                let m = line_size(n, t.len());
                t = &t[m..];
                k += 1;
            }
            Objection::To(j, h) => {
                return Objection::To(j, h);
            }
        }
    }
    Objection::Fine
}

// The same where there are enough fields.
pub(crate) fn if_counted(enough: bool, rules: &[u8], s: &[u8]) -> Objection
    requires { length rules.now ≤ 7 }
    ensures { result ≡ if_counted enough rules.now s.now }
{
    if enough {
        return by_rules(rules, s);
    }
    Objection::Fine
}
