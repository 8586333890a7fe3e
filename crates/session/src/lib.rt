// The session of a sitting, by value: its tables and cursor lines, and what it is doing.
#![tactic(auto)]

pub mod answer;
pub mod browse;
pub mod fits;
pub mod password;
pub mod second;
pub mod session;
pub mod step;
pub mod visit;
