// Whole sittings: Open and a list of events, with the sheet always the journal's.
#![tactic(auto)]

pub mod sit;
