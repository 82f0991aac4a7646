// One unit of an EPL file where it stands: what it does at a reference, and how long it is.
#![tactic(auto)]

pub mod unit;
