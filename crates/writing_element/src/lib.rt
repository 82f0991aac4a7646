// Elements as EPL commands, into a lent buffer.
#![tactic(auto)]

pub mod place;
pub mod plain;
pub mod write;
