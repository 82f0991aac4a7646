// What a step answers, for hosts that know numbers and structs only.
#![tactic(auto)]

pub mod answer;
pub mod element;
pub mod steps;
pub mod written;
