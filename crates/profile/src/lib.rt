// The well-site profile (01): what it has against the number fields of one unit.
#![tactic(auto)]

pub mod rule;
pub mod unit;
