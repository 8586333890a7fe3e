// What each key makes of the working copy of a visit.
#![tactic(auto)]

pub mod press;
