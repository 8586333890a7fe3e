// Texts: a length byte and so many bytes; several of them one after the other.
ghost use Rattle.std.specs.Prelude.{◌≡◌, false, ◌+◌, ◌<◌, length};
ghost use Rattle.cmf.specs.Readers.{run_of, texts_from, all_digits, password_fits, item_from, item_place};
ghost use Rattle.cmf.specs.Readers.{text_bytes};
ghost use Rattle.laws.specs.Choice.{when◌then◌else◌, ◌<?◌};

use crate::image::Image;
use laws::{byte_at, room};

// Whether the texts are all in the image, where they end, and the length of the longest.
#[derive(Clone, Copy)]
pub struct Run {
    pub fits: bool,
    pub end: usize,
    pub longest: u8,
}

impl Run {
    // Texts that the image does not hold all of, up to the one that is cut.
    fn cut(end: usize, longest: u8) -> Self
        ensures { result ≡ run_of false end longest }
    {
        Run {
            fits: false,
            end,
            longest,
        }
    }
}

// So many texts from a place on.
pub fn read_texts(image: &[u8], count: usize, at: usize) -> Run
    ensures { result ≡ texts_from image.now count at 0 }
{
    let mut end = at;
    let mut longest = 0u8;
    for _ in 0..count {
        if image.len() <= end {
            return Run::cut(end, longest);
        }
        let n = image[end];
        let next = end + 1 + n as usize;
        if image.len() < next {
            return Run::cut(end, longest);
        }
        end = next;
        longest = longest.max(n);
    }
    Run {
        fits: true,
        end,
        longest,
    }
}

// Whether count bytes from a place on are ASCII digits.
fn all_digits(image: &[u8], count: usize, at: usize) -> bool
    requires { at + count < 18446744073709551616 }
    ensures { result ≡ all_digits image.now count at }
{
    for k in at..at + count {
        if !byte_at(image, k).is_ascii_digit() {
            return false;
        }
    }
    true
}

// Whether the text at a place is a password that the paper allows.
pub fn password_fits(image: &[u8], at: usize) -> bool
    ensures { result ≡ password_fits image.now at }
{
    let n = byte_at(image, at) as usize;
    if n < 1 || Image::MAX_PASSWORD < n {
        return false;
    }
    all_digits(image, n, at + 1)
}

// The bytes of an option before its items.
pub const ITEMS: usize = 10;

// The place of the k-th of the texts from a place on.
fn item_from(image: &[u8], k: usize, at: usize) -> usize
    ensures { result ≡ item_from image.now k at }
{
    let mut place = at;
    for _ in 0..k {
        if image.len() <= place {
            return place;
        }
        place += 1 + byte_at(image, place) as usize;
    }
    place
}

// Where an item of the option at a place begins, its length byte first; 0 for a place beyond the image.
pub fn item_place(image: &[u8], place: usize, item: usize) -> usize
    ensures { result ≡ when place <? length image.now
        then item_place image.now place item else 0 }
{
    if place < image.len() {
        return item_from(image, item, place + ITEMS);
    }
    0
}

// The bytes of the text at a place.
pub fn text_bytes<'a>(image: &'a [u8], at: usize) -> &'a [u8]
    ensures { result.now ≡ text_bytes image.now at }
{
    let n = byte_at(image, at) as usize;
    if room(image, at, 1 + n) {
        let start = at + 1;
        let end = start + n;
        return &image[start..end];
    }
    &image[0..0]
}

// The text of an item of the option at a place.
pub fn item_bytes<'a>(image: &'a [u8], place: usize, item: usize) -> &'a [u8]
    ensures { result.now ≡ text_bytes image.now (item_place image.now place item) }
{
    if place < image.len() {
        return text_bytes(image, item_place(image, place, item));
    }
    &image[0..0]
}

// The bytes of the constant string whose tag is at a place.
pub fn string_bytes<'a>(image: &'a [u8], place: usize) -> &'a [u8]
    ensures { result.now ≡ text_bytes image.now (place + 1) }
{
    if place < image.len() {
        return text_bytes(image, place + 1);
    }
    &image[0..0]
}
