// What a component shows, and the cells of a row that it is put into.
#![tactic(auto)]

pub mod row;
pub mod text;
