// Where the walk of one label starts, by its entry.
ghost use Rattle.std.specs.Prelude.{◌≡◌};
ghost use Rattle.label_opening.specs.Opened.{start_of};

use elements::refusal::{LONGEST, Refusal};
use elements::walk_state::WalkState;
use label_index::entry::LabelEntry;

// The state that it starts at, and the place that the input is cut at; or a refusal and its place.
#[derive(Clone, Copy)]
pub enum Start {
    At(WalkState, usize),
    Denied(Refusal, usize),
}

// Of the entry e with the number i, out of n, for an input of len bytes. Its own count is not looked at.
pub fn start_of(len: usize, n: usize, i: usize, e: LabelEntry) -> Start
    ensures { result ≡ start_of len n i e }
{
    if LONGEST < len {
        return Start::Denied(Refusal::InputTooLong, 0);
    }
    if n <= i {
        return Start::Denied(Refusal::NoSuchLabel, i);
    }
    let last = e.last;
    if len < last {
        return Start::Denied(Refusal::StateOutside, last);
    }
    if last < e.first {
        return Start::Denied(Refusal::StateOutside, last);
    }
    let reference = e.reference;
    let st = WalkState {
        reference,
        pending: 0,
        place: e.first,
    };
    Start::At(st, last)
}
