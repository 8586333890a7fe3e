// The calls for C: a session is bytes that the caller keeps, and an answer is one number. include/handset.h
// declares those of the handset, include/desk.h those of the desk.
#![tactic(auto)]

pub mod answer;
pub mod calls;
pub mod desk;
