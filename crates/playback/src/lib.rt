// A record played back at the desk: Open, and then the record's events one after another.
#![tactic(auto)]

mod events;
pub mod play;
