// What a call that joins two files answers.
ghost use Rattle.std.specs.Prelude.{◌≡◌};
ghost use Rattle.elements.specs.Refusals.{number_of};
ghost use Rattle.joining.specs.Join.{answer};

use elements::refusal::Refusal;

// number 0: the joined text is written, place is its length. Else a refusal: its number and its place, and file says
// which file was refused, 1 or 2. file is 0 where neither was.
#[repr(C)]
#[derive(Clone, Copy)]
pub struct Joined {
    pub number: u32,
    pub file: u32,
    pub place: usize,
}

// A refusal that is neither file's.
pub(crate) fn neither(k: Refusal, place: usize) -> Joined
    ensures { result ≡ answer (number_of k) 0 place }
{
    Joined {
        number: k.number() as u32,
        file: 0,
        place,
    }
}
