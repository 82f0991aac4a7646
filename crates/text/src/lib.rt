// What bytes say, as definitions and laws: decoding, blanks, classes, fields. The code over them is `byte_classes`,
// `byte_slices` and `numbers`.
#![tactic(auto)]

pub mod num;
