// `LO`, `LW`, `LE`, `LS`, `X`: lines, diagonals and boxes.
#![tactic(auto)]

pub mod draw;
