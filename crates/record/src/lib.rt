// A sitting as a row of numbers, and back: numbers in groups of seven bits, and the first form of a record.
// There is no image here: a record is about events alone.
#![tactic(auto)]

pub mod number;
pub mod reading;
pub mod recording;
