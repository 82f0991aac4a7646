// The strict reading of a whole file: EPL under the well-site profile (01).
#![tactic(auto)]

pub mod check;
pub mod listing;
pub mod verdict;
