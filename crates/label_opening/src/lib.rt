// One label of a file, read from its entry of the index, into a buffer that the host lends.
#![tactic(auto)]

pub mod label;
pub mod start;
