// `B`: bar codes.
#![tactic(auto)]

pub mod barcode;
pub mod ratio;
