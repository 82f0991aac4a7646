// Classes of bytes, from one table of all 256.
#![tactic(auto)]

pub mod class;
