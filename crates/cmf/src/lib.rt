// What is at a place of a CMF 0.4 image: the prolog, a table's title, a line's head, a component, an option's
// item; and the ways from place to place. Every reader is total: it answers whatever the bytes and the place.
#![tactic(auto)]

pub mod component;
pub mod head;
pub mod image;
mod layout;
pub mod place;
pub mod refusal;
pub mod text;
pub mod title;
