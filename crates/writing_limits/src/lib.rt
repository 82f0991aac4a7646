// Which elements a line or a block yields, by the fields of their structs.
#![tactic(auto)]

pub mod fine;
