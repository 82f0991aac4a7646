// The element of one label that is nearest to a point.
#![tactic(auto)]

pub mod nearest;
