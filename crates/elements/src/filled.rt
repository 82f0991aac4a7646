// What a call that fills a lent buffer answers.
use crate::refusal::Refusal;

// How many bytes it wrote, from the buffer's start; or why there are none, and the place.
#[derive(Clone, Copy)]
pub enum Filled {
    Bytes(usize),
    Refused(Refusal, usize),
}
