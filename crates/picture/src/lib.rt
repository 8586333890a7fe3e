// What the display shows for an image, a sheet and a session that fits: rows, and the edit cursor.
#![tactic(auto)]

mod component;
pub mod cursor;
pub mod line;
pub mod picture;
pub mod title;
