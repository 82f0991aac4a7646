// `GW`: graphic blocks.
#![tactic(auto)]

pub mod gw_span;
