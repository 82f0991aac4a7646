// What lies where on one label, opened by its entry: over the elements that its walk yields, none of which is stored.
#![tactic(auto)]

pub mod find;
