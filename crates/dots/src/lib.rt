// From 203 to 300 dots an inch: one length, and one element.
#![tactic(auto)]

pub mod element;
pub mod length;
