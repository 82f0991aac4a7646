// What the check of a file answers.
ghost use Rattle.std.specs.Prelude.{◌≡◌};
ghost use Rattle.strict.specs.Verdict.{bare, told};

use profile::rule::Held;

// number 0: the file is accepted, and so is every other field. Else a refusal: its number and its place; of 17 and 18
// also the field, counted from 1, and what it held: 1 nothing, 2 no number, 3 one beyond 32 bits, 4 a value outside the
// profile. 0 for all others.
#[repr(C)]
#[derive(Clone, Copy)]
pub struct Checked {
    pub number: u32,
    pub field: u32,
    pub held: u32,
    pub place: usize,
}

// A refusal that tells of no field; or, with the number 0, none.
pub(crate) fn bare(number: u32, place: usize) -> Checked
    ensures { result ≡ bare number place }
{
    Checked {
        number,
        field: 0,
        held: 0,
        place,
    }
}

// What the k-th field of the unit at a place held, which the profile objects to.
pub(crate) fn told(k: u32, h: Held, place: usize) -> Checked
    ensures { result ≡ told k h place }
{
    Checked {
        number: h.number(),
        field: k,
        held: h.kind(),
        place,
    }
}
