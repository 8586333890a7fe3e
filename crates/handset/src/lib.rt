// The public calls of the menu executor, and the list of an image's fields.
#![tactic(auto)]

pub mod draw;
pub mod event;
pub mod fields;
pub mod open;
pub mod option;
pub mod refusal;
