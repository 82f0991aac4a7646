// Two files joined: the first normalised, a line `N`, the second normalised.
#![tactic(auto)]

pub mod answer;
pub mod join;
