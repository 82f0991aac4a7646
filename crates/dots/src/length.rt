// One length: the nearest whole number to 300/203 of it. A length in 203rds of an inch and one in 300ths are types of
// their own.
ghost use Rattle.std.specs.Prelude.{◌≡◌, ◌<◌, pos, negsuc};
ghost use Rattle.dots.specs.Length.{to300, converted};

use numbers::int::bits;

#[repr(C)]
#[derive(Clone, Copy)]
pub struct Dots203(pub i32);

#[repr(C)]
#[derive(Clone, Copy)]
pub struct Dots300(pub i32);

#[derive(Clone, Copy)]
pub enum Converted {
    Dots(Dots300),
    Outside,
}

// -1 - z
fn below(z: u64) -> i32
    requires { z < 2147483648 }
    ensures { result ≡ negsuc z }
{
    (-1 - (z as i64)) as i32
}

// k dots
fn rising(k: u64) -> Converted
    requires { k < 2147483648 }
    ensures { result ≡ converted (to300 (pos k)) }
{
    let z = (k * 600 + 203) / 406;
    if z < 2147483648 {
        return Converted::Dots(Dots300(z as i32));
    }
    Converted::Outside
}

// -1 - k dots
fn falling(k: u64) -> Converted
    requires { k < 2147483648 }
    ensures { result ≡ converted (to300 (negsuc k)) }
{
    let z = (k * 600 + 396) / 406;
    if z < 2147483648 {
        return Converted::Dots(Dots300(below(z)));
    }
    Converted::Outside
}

// The nearest length in 300ths, where it has 32 bits.
pub fn to_300(n: Dots203) -> Converted
    ensures { result ≡ converted (to300 n.0) }
{
    let v = n.0;
    let b = bits(v);
    if b < 2147483648 {
        return rising(b as u64);
    }
    falling((4294967295 - b) as u64)
}
