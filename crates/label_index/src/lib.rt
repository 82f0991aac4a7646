// The label index: an entry for each label of a file, in print order, into a list that the host lends.
#![tactic(auto)]

pub mod entry;
mod glance;
pub mod labels;
