// The check of an image and a sheet (refusals 2 to 11), and the index of the fields that it reaches.
#![tactic(auto)]

pub mod check;
