// Finding a byte, sixty-four at a time: a window is looked through with no early exit, so that the compiler can use
// wide registers.
ghost use Rattle.std.specs.Prelude.{◌≡◌, ◌+◌, ◌≤◌, length};
ghost use Rattle.text.specs.Fields.{Found};
ghost use Rattle.text.specs.Scan.{Passed, First, Near, size_by};

use crate::word::marks;

// So many bytes are near. Most lines are shorter.
pub const NEAR: usize = 96;

// The first b among the sixty-four bytes from `from` on, counted from there, or 64: a minimum over all of them.
fn window(a: &[u8], from: usize, b: u8) -> u8
    requires { from + 64 ≤ length a.now }
    ensures { First a.now b from (from + 64) (from + result) }
{
    let mut k: u8 = 64;
    for i in 0..64u8 {
        let c: u8 = if a[from + (i as usize)] == b { i } else { 64 };
        k = if c < k { c } else { k };
    }
    k
}

// Passes bytes four at a time: no b stands before where it stops.
fn by_four(a: &[u8], from: usize, b: u8) -> usize
    requires { from ≤ length a.now }
    ensures { Passed a.now b from result }
{
    let mut i = from;
    while 4 <= a.len() - i {
        if a[i] == b {
            return i;
        }
        if a[i + 1] == b {
            return i + 1;
        }
        if a[i + 2] == b {
            return i + 2;
        }
        if a[i + 3] == b {
            return i + 3;
        }
        i += 4;
    }
    i
}

fn by_one(a: &[u8], from: usize, b: u8) -> usize
    requires { from ≤ length a.now }
    ensures { First a.now b from (length a.now) result }
{
    match a[from..].iter().position(|x| *x == b) {
        Some(k) => from + k,
        None => a.len(),
    }
}

// The first b among the first NEAR bytes, eight at a time, or NEAR: what stands near is known sooner than by a window.
// NEAR too where there are fewer bytes.
pub fn near(a: &[u8], b: u8) -> usize
    ensures { Near a.now b result }
{
    if a.len() < NEAR {
        return NEAR;
    }
    let mut i = 0;
    while i <= NEAR - 8 {
        let m = marks(a, i, b);
        if m != 0 {
            return i + ((u64::trailing_zeros(m) / 8) as usize);
        }
        i += 8;
    }
    NEAR
}

// The first b, by places.
fn scan(a: &[u8], b: u8) -> usize
    ensures { First a.now b 0 (length a.now) result }
{
    let mut i = 0;
    while 64 <= a.len() - i {
        let k = window(a, i, b);
        if k < 64 {
            return i + (k as usize);
        }
        i += 64;
    }
    by_one(a, by_four(a, i, b), b)
}

// The index of the first b, or the length where there is none.
#[tactic(auto, using(text::proofs::ScanLaws::first_found))]
pub fn find(s: &[u8], b: u8) -> usize
    ensures { Found b s.now result }
{
    scan(s, b)
}

// Of len bytes, those of a line whose LF stands at n, or that has none.
pub fn line_size(n: usize, len: usize) -> usize
    ensures { result ≡ size_by n len }
{
    if n < len { n + 1 } else { n }
}
