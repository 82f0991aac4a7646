// The fields of frames (01, "Frames"), written as hexadecimal digits into a lent buffer. A writer gives the place after
// what it wrote, and asks for the room that it needs.
#![tactic(auto)]

pub mod data;
pub mod fields;
pub mod hex;
