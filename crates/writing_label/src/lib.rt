// Labels as EPL, from lent lists of elements into a lent buffer.
#![tactic(auto)]

pub mod at_300;
pub mod label;
pub mod tally;
pub mod turn;
