// The listing of a file's labels, into a buffer that the host lends.
#![tactic(auto)]

pub mod listing;
pub mod printing;
