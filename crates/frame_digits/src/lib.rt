// The frames of elements, counts and refusals as lines of hexadecimal digits, into a lent buffer. A writer gives the
// place after what it wrote, and asks for the room that it needs.
#![tactic(auto)]

pub mod frame;
pub mod kinds;
