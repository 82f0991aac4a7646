// One line of an EPL file, whatever it says.
#![tactic(auto)]

pub mod line;
