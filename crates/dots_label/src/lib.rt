// From 203 to 300 dots an inch: one label of a file, read from its entry of the index, into a list that the host lends.
#![tactic(auto)]

pub mod fault;
pub mod fill;
pub mod label;
mod line;
pub mod plan;
