// The element that a host hands over as a struct, and whether it is one.
#![tactic(auto)]

pub mod element;
pub mod same;
