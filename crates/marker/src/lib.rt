// The marker of the desk: points right, wrong and blank on a sheet, by a key. It is built on what is promised
// of the executor's fields and defaults.
#![tactic(auto)]

pub mod key;
pub mod mark;
mod table;
pub mod verdict;
