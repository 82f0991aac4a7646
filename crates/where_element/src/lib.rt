// One element of a label against a rectangle or a point (01, "What lies where").
#![tactic(auto)]

pub mod element;
pub mod found;
pub mod place;
