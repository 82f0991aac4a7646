// Positions, rectangles and distances, in 64 bits where 32 could wrap.
ghost use Rattle.std.specs.Prelude.{◌≡◌, max, ◌+ℤ◌, ◌-ℤ◌};
ghost use Rattle.std.specs.Int.Signed.{le_z};
ghost use Rattle.where_element.specs.Place.{is_inside, meet, is_touching, apart, distance, is_turned};

use elements::LabelPosition;

// A closed rectangle: its near corner, and its far one.
#[repr(C)]
#[derive(Clone, Copy)]
pub struct Rectangle {
    pub x1: i32,
    pub y1: i32,
    pub x2: i32,
    pub y2: i32,
}

// The far corner is below the near one on either axis.
pub fn is_turned(r: Rectangle) -> bool
    ensures { result ≡ is_turned r }
{
    (r.x2 < r.x1) | (r.y2 < r.y1)
}

// A position in a rectangle.
pub(crate) fn is_inside(p: LabelPosition, r: Rectangle) -> bool
    ensures { result ≡ is_inside p r }
{
    ((r.x1 <= p.x) & (p.x <= r.x2)) & ((r.y1 <= p.y) & (p.y <= r.y2))
}

// The sum and the difference, which 64 bits always hold.
fn plus(a: i32, b: i32) -> i64
    ensures { result ≡ a +ℤ b }
{
    (a as i64) + (b as i64)
}

fn minus(a: i32, b: i32) -> i64
    ensures { result ≡ a -ℤ b }
{
    (a as i64) - (b as i64)
}

// The far edge at + size is not below low.
fn reaches(low: i32, at: i32, size: i32) -> bool
    ensures { result ≡ le_z low (at +ℤ size) }
{
    (low as i64) <= plus(at, size)
}

// Along one axis: what runs from at to at + size, and is not empty, meets what runs from low to high.
fn meets(at: i32, size: i32, low: i32, high: i32) -> bool
    ensures { result ≡ meet at (at +ℤ size) low high }
{
    reaches(at, at, size) & (at <= high) & reaches(low, at, size)
}

// The rectangle from x, y to x + w, y + h shares a point with another.
pub fn touches(x: i32, y: i32, w: i32, h: i32, r: Rectangle) -> bool
    ensures { result ≡ is_touching x y w h r }
{
    meets(x, w, r.x1, r.x2) & meets(y, h, r.y1, r.y2)
}

// How far two numbers are apart: up to 4294967295.
fn apart(a: i32, b: i32) -> u64
    ensures { result ≡ apart a b }
{
    if a < b {
        return minus(b, a) as u64;
    }
    minus(a, b) as u64
}

fn larger(a: u64, b: u64) -> u64
    ensures { result ≡ max a b }
{
    if a < b { b } else { a }
}

// The larger of the two distances along x and y.
pub fn distance(p: LabelPosition, q: LabelPosition) -> u64
    ensures { result ≡ distance p q }
{
    larger(apart(p.x, q.x), apart(p.y, q.y))
}
