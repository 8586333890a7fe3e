// The heads of lines in the quick walk, by their tags.
ghost use Rattle.std.specs.Prelude.{◌≡◌, true, ℕ, ◌+◌, ◌%◌, ◌<◌, ◌≤◌, length, IfSome};
ghost use Rattle.laws.specs.Bytes.{word_at};
ghost use Rattle.cmf.specs.Layouts.{Aligned, Text};
ghost use Rattle.cmf.specs.Grammar.{Digits, Head, is_last, password_at, has_submenu, next_line};
ghost use Rattle.cmf.specs.Grammar.{submenu_table};
ghost use Rattle.quick.specs.Accept.{Linked, Placed};

use crate::tally::Tally;
use acceptance::line_place::LinePlace;
use cmf::head::{back_offset, options_length};
use cmf::image::Image;
use cmf::text::password_fits;

// The two bytes at a place that has them, low byte first.
pub(crate) fn word_in(image: &[u8], at: usize) -> usize
    requires { at + 1 < length image.now }
    ensures { (result ≡ word_at image.now at) × (result < 65536) }
{
    image[at] as usize + 256 * (image[at + 1] as usize)
}

// Whether a place is the first odd one from `at` on, which follows at once or after a zero byte.
fn is_padded_to_odd(image: &[u8], at: usize, place: usize) -> bool
    requires { place < length image.now }
    ensures { result ≡ true → Aligned image.now 1 at place }
{
    if at % 2 == 1 {
        return place == at;
    }
    at < place && place - at == 1 && image[at] == 0
}

// Where the head of a later line at p ends, if it is after `at` and has no mark but that of the last. It has
// five bytes, and two less with that mark, whose weight is 2: there is no pointer on.
pub(crate) fn plain_end(image: &[u8], before: usize, p: usize, at: usize) -> Option<usize>
    requires { (before < length image.now) × (before ≤ p) × (p < before + 65536) }
    ensures { IfSome result (λ end. (p < length image.now)
        × (Aligned image.now 1 at p × ((n : ℕ) → 0 < n → Head image.now n before p end))) }
{
    if image.len() < p + 5 || !is_padded_to_odd(image, at, p) {
        return None;
    }
    let tag = image[p];
    if tag != 0 && tag != 2 {
        return None;
    }
    let end = p + 5 - tag as usize;
    if word_in(image, end - 2) != p - before {
        return None;
    }
    Some(end)
}

// Whether the mark of the first and the pointer back of a line agree with its place.
fn is_linked(image: &[u8], line: LinePlace) -> bool
    requires { (password_at image.now line.at ≤ length image.now) × (line.before ≤ line.at) }
    ensures { result ≡ true → Linked image.now line.number line.before line.at }
{
    let tag = image[line.at];
    if line.number == 0 {
        return tag % 2 == 1;
    }
    tag % 2 == 0 && word_in(image, line.at + back_offset(tag)) == line.at - line.before
}

// Where the password at a place ends.
fn password_end(image: &[u8], at: usize) -> Option<usize>
    ensures { IfSome result (λ end. Text image.now at end × Digits image.now at) }
{
    if image.len() <= at {
        return None;
    }
    let end = at + 1 + image[at] as usize;
    if image.len() < end || !password_fits(image, at) {
        return None;
    }
    Some(end)
}

// Where the options of the line at p end, without its password.
fn options_end(image: &[u8], p: usize) -> usize
    requires { p < length image.now }
    ensures { (result ≡ password_at image.now p) × (result ≤ p + 9) }
{
    p + options_length(image[p])
}

// Where the head of any line ends.
fn any_end(image: &[u8], line: LinePlace) -> Option<usize>
    requires { (line.at < length image.now) × (line.before ≤ line.at) }
    ensures { IfSome result (λ end. Head image.now line.number line.before line.at end) }
{
    let tag = image[line.at];
    let end = options_end(image, line.at);
    if image.len() < end || !is_linked(image, line) {
        return None;
    }
    if tag < 16 {
        return Some(end);
    }
    if tag < 32 && tag / 8 % 2 == 1 {
        return password_end(image, end);
    }
    None
}

// Where the head of a line ends, if the line follows where the walk is and may be counted.
pub(crate) fn accept_head(image: &[u8], line: LinePlace, w: Tally) -> Option<usize>
    requires { line.before ≤ line.at }
    ensures { IfSome result (λ end. Placed image.now line.number line.before line.at w end) }
{
    if image.len() <= line.at
        || Image::MAX_LINES <= w.lines
        || !is_padded_to_odd(image, w.at, line.at)
    {
        return None;
    }
    any_end(image, line)
}

// The place of the table below the line at p: its pointer is the last of the options.
pub(crate) fn submenu_of(image: &[u8], p: usize) -> usize
    requires { (password_at image.now p ≤ length image.now) × (has_submenu image.now p ≡ 1) }
    ensures { result ≡ submenu_table image.now p }
{
    Image::PROLOG + word_in(image, options_end(image, p) - 2)
}

// The place of the line after the one at p, which is not the last.
pub(crate) fn next_of(image: &[u8], p: usize) -> usize
    requires { (password_at image.now p ≤ length image.now) × (is_last image.now p ≡ 0) }
    ensures { (result ≡ next_line image.now p) × (p ≤ result) × (result < p + 65536) }
{
    p + word_in(image, p + 1)
}
