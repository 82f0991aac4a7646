// `b`: 2D bar codes.
#![tactic(auto)]

pub mod barcode_2d;
pub mod maxicode;
pub mod options;
