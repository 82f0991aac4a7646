// What the readers of commands share: their answer, positions at a reference, rotations, and the parameter part field
// by field.
#![tactic(auto)]

pub mod field_reader;
pub mod params;
pub mod position;
pub mod reading;
pub mod rotation;
