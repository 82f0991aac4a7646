// Bytes as they stand: a search, fields, classes, decoding, and bytes written.
#![tactic(auto)]

pub mod class;
pub mod fields;
pub mod put;
pub mod scan;
pub mod utf8;
pub mod word;
