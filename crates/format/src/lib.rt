// The normalised text of a file, into a buffer that the host lends.
#![tactic(auto)]

pub mod normalise;
