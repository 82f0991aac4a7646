// Lists that a host lends: one that a loop fills from the front, and one that a loop passes. No code.
#![tactic(auto)]
