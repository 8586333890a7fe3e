// What the programs share: the display, the files that their arguments name, and words for a terminal.
#![tactic(auto)]

pub mod display;
pub mod events;
pub mod file;
pub mod words;
