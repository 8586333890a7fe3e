// Which images are accepted: the check as a definition, with its state and its list of reached fields, and
// the theorems that it accepts exactly the well-formed images and refuses any other with the number that the
// paper fixes.
#![tactic(auto)]

pub mod index;
pub mod line_place;
pub mod progress;
pub mod shared;
