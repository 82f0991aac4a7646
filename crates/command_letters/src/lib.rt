// Which command a line spells; `R`, which sets the reference point, and `P`, which prints.
#![tactic(auto)]

pub mod command;
pub mod print;
pub mod reference;
