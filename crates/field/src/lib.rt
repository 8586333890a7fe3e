// What a field of a menu image is, without the image: kinds and settings, ranges, the cells of a visit, bytes
// in the sheet.
#![tactic(auto)]

pub mod calendar;
pub mod kind;
pub mod numeral;
pub mod profile;
pub mod record;
pub mod settings;
pub mod value;
pub mod work;
