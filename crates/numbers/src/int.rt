// Arithmetic on i32 that says where a result is outside 32 bits.
ghost use Rattle.std.specs.Prelude.{◌≡◌, ◌+ℤ◌, ◌-ℤ◌, ◌*ℤ◌};
ghost use Rattle.numbers.specs.Int.{checked, min_z, max_z, abs_z, eq_z, twos};

#[derive(Clone, Copy)]
pub enum Checked {
    Fits(i32),
    Outside,
}

// t, where it has 32 bits.
fn narrow(t: i64) -> Checked
    ensures { result ≡ checked t }
{
    if t < -2147483648 {
        return Checked::Outside;
    }
    if 2147483647 < t {
        return Checked::Outside;
    }
    Checked::Fits(t as i32)
}

// The sum, the difference and the product, which 64 bits always hold.
fn plus(a: i32, b: i32) -> i64
    ensures { result ≡ a +ℤ b }
{
    (a as i64) + (b as i64)
}

fn minus(a: i32, b: i32) -> i64
    ensures { result ≡ a -ℤ b }
{
    (a as i64) - (b as i64)
}

fn times(a: i32, b: i32) -> i64
    ensures { result ≡ a *ℤ b }
{
    (a as i64) * (b as i64)
}

pub fn checked_add(a: i32, b: i32) -> Checked
    ensures { result ≡ checked (a +ℤ b) }
{
    narrow(plus(a, b))
}

pub fn checked_sub(a: i32, b: i32) -> Checked
    ensures { result ≡ checked (a -ℤ b) }
{
    narrow(minus(a, b))
}

pub fn checked_mul(a: i32, b: i32) -> Checked
    ensures { result ≡ checked (a *ℤ b) }
{
    narrow(times(a, b))
}

// How far a is from 0: outside for the least i32 alone.
pub fn checked_abs(a: i32) -> Checked
    ensures { result ≡ checked (abs_z a) }
{
    if a < 0 {
        return narrow(minus(0, a));
    }
    Checked::Fits(a)
}

// The smaller.
pub fn min(a: i32, b: i32) -> i32
    ensures { result ≡ min_z a b }
{
    if a < b { a } else { b }
}

// The greater.
pub fn max(a: i32, b: i32) -> i32
    ensures { result ≡ max_z a b }
{
    if a < b { b } else { a }
}

// Two numbers are the same.
pub fn equal(a: i32, b: i32) -> bool
    ensures { result ≡ eq_z a b }
{
    a == b
}

// The bits of a number, in two's complement.
pub fn bits(v: i32) -> u32
    ensures { result ≡ twos v }
{
    if v < 0 {
        4294967295 - ((-1 - v) as u32)
    } else {
        v as u32
    }
}
