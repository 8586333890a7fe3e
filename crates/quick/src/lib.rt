// The quick walk: it tells an image without fault by a few tests on its bytes, and leaves every other to the
// check. A function that answers None is in doubt.
#![tactic(auto)]

pub mod accept;
mod claim;
mod components;
mod fixed;
mod heads;
pub mod position;
mod run;
pub mod tally;
mod texts;
