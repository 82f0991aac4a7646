// The bytes of decoded data, into a buffer that the host lends.
#![tactic(auto)]

pub mod data;
