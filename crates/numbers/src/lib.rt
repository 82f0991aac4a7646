// Blanks and numbers: trimming, number fields, sums and products at 32 bits.
#![tactic(auto)]

pub mod blank;
pub mod float;
pub mod int;
pub mod number;
