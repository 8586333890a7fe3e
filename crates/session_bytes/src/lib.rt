// A session as bytes: what C keeps of one, and what the cases of the gate are written in.
#![tactic(auto)]

pub mod layout;
mod number;
pub mod read;
pub mod write;
