// A line of the normalised text, into a buffer that the host lends.
#![tactic(auto)]

pub mod line;
