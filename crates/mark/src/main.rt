// A sheet marked at the desk in one command: `mark IMAGE SHEET KEY` prints a line for each question of the
// key, with the way to it through the menu, and then the points right, wrong and blank; or the refusal.
#![tactic(auto)]

mod byte;
mod key;
mod path;
mod report;
mod trim;

use cmf::image::Image;
use console::file::{IMAGE_ROOM, read_named};
use std::io;

// One byte more than a sheet may have, so that a longer file is refused.
const SHEET_ROOM: usize = Image::MAX_SHEET + 1;

const USAGE: &str = "usage: mark IMAGE SHEET KEY\n";

fn main(rt: HostRuntime) -> io::Result<()> {
    let Some(image) = read_named(&rt, 1, IMAGE_ROOM, USAGE)? else {
        return Ok(());
    };
    let Some(sheet) = read_named(&rt, 2, SHEET_ROOM, USAGE)? else {
        return Ok(());
    };
    let Some(bytes) = read_named(&rt, 3, key::ROOM, USAGE)? else {
        return Ok(());
    };
    key::mark_by(&rt, &image, &sheet, &bytes)
}
