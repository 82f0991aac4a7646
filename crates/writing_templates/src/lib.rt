// The command of an element: a template, filled from its struct.
#![tactic(auto)]

pub mod fill;
pub mod template;
