// `A`: fonts and text.
#![tactic(auto)]

pub mod epl_text;
pub mod fonts;
