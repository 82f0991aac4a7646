// What a call over one label's elements answers.
use elements::refusal::Refusal;

// How many elements were found, or the number of the nearest one; or why there is none, and the place.
#[derive(Clone, Copy)]
pub enum Found {
    Number(usize),
    Refused(Refusal, usize),
}
