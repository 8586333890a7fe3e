// The way through an image: lines of a table by their number, components of a line, and the editable ones.
ghost use Rattle.std.specs.Prelude.{◌≡◌, true, ◌+◌, ◌<◌, ◌≤◌, length};
ghost use Rattle.laws.specs.Choice.{◌=?◌};
ghost use Rattle.laws.specs.Bytes.{word_at};
ghost use Rattle.cmf.specs.Readers.{tag_bit, options_end, texts_from, head_at};
ghost use Rattle.cmf.specs.Places.{line_at, line_count, line_found, rest_of_line, first_editable};
ghost use Rattle.cmf.specs.Places.{next_editable, components_of, is_in};

use crate::component::read_component;
use crate::head::{Head, any_head, options_length, read_head};
use crate::image::{Image, word_in};
use crate::text::read_texts;
use crate::title::read_title;
use field::kind::ImagePlace;
use laws::room;

// Of a line's head what leads on: whether the line is the last of its table, and the place of the next line.
#[derive(Clone, Copy)]
struct Step {
    last: bool,
    next: ImagePlace,
}

impl Step {
    // What the tag and the two bytes after it say.
    fn read(image: &[u8], p: usize, tag: u8) -> Self
        requires { p + 9 ≤ length image.now }
        ensures { (result.last ≡ (tag_bit 2 tag =? 1))
            × (result.next.0 ≡ p + word_at image.now (p + 1)) }
    {
        Step {
            last: tag / 2 % 2 == 1,
            next: ImagePlace(p + word_in(image, p + 1)),
        }
    }
}

// Whether a tag asks for a submenu and its password, and the password is all there.
fn is_protected(image: &[u8], p: usize, tag: u8) -> bool
    requires { p + 9 ≤ length image.now }
    ensures { result ≡ true → (24 ≤ tag) × (tag < 32)
        × ((texts_from image.now 1 (options_end p tag) 0).fits ≡ true) }
{
    (24..32).contains(&tag) && read_texts(image, 1, p + options_length(tag)).fits
}

// Where the options have room, and a password too, no head needs to be read.
fn step_at(image: &[u8], p: usize) -> Step
    ensures { (result.last ≡ (head_at image.now p).last)
        × (result.next.0 ≡ (head_at image.now p).next.0) }
{
    if room(image, p, Head::MOST) {
        let tag = image[p];
        if tag < 16 || is_protected(image, p, tag) {
            return Step::read(image, p, tag);
        }
    }
    let h = any_head(image, p);
    Step {
        last: h.last,
        next: h.next,
    }
}

// The place of line k of a table, from 0; without meaning past the table's last line.
pub fn line_at(image: &[u8], table: usize, k: usize) -> usize
    ensures { result ≡ line_at image.now table k }
{
    let mut p = read_title(image, table).line.0;
    for _ in 0..k {
        p = step_at(image, p).next.0;
    }
    p
}

// How many lines a table has; one more than there may be is looked for.
pub fn line_count(image: &[u8], table: usize) -> usize
    ensures { result ≡ line_count image.now table }
{
    let mut p = read_title(image, table).line.0;
    for n in 0..=Image::MAX_TABLE_LINES {
        let h = step_at(image, p);
        if h.last {
            return n + 1;
        }
        p = h.next.0;
    }
    Image::MAX_TABLE_LINES + 1
}

// Line k of a table, from 0, if the table has so many; no line after it is looked at.
pub fn reach(image: &[u8], table: usize, k: usize) -> Option<ImagePlace>
    ensures { result ≡ line_found image.now table k }
{
    if Image::MAX_TABLE_LINES < k {
        return None;
    }
    let mut p = read_title(image, table).line.0;
    for _ in 0..k {
        let h = read_head(image, p);
        if h.last {
            return None;
        }
        p = h.next.0;
    }
    Some(ImagePlace(p))
}

// The first editable component from one on to the last of its line.
pub fn first_editable(image: &[u8], from: usize) -> Option<ImagePlace>
    ensures { result ≡ first_editable image.now (rest_of_line image.now from) }
{
    let mut p = from;
    for _ in 0..=image.len() {
        let c = read_component(image, p);
        if c.editable {
            return Some(ImagePlace(p));
        }
        if c.last {
            return None;
        }
        p = c.next.0;
    }
    None
}

// The editable component that follows the one at a place on its line.
pub fn next_editable(image: &[u8], place: usize) -> Option<ImagePlace>
    ensures { result ≡ next_editable image.now place }
{
    let c = read_component(image, place);
    if c.last {
        return None;
    }
    first_editable(image, c.next.0)
}

// Whether a place is that of a component of a line.
pub fn is_on_line(image: &[u8], line: usize, place: usize) -> bool
    ensures { result ≡ is_in place (components_of image.now line) }
{
    let mut c = read_head(image, line).component.0;
    for _ in 0..=image.len() {
        if c == place {
            return true;
        }
        let k = read_component(image, c);
        if k.last {
            return false;
        }
        c = k.next.0;
    }
    false
}
