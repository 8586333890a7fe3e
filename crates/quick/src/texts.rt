// Options and switches in the quick walk: the fields that have texts.
ghost use Rattle.std.specs.Prelude.{◌≡◌, true, [], ◌∷◌, ◌+◌, ◌%◌, ◌^◌, ◌<◌, ◌≤◌, length, IfSome};
ghost use Rattle.laws.specs.Bytes.{byte_at};
ghost use Rattle.field.specs.Settings.{settings_fit};
ghost use Rattle.cmf.specs.Layouts.{Texts, Component, switch_at, option_at};
ghost use Rattle.quick.specs.Accept.{Held};

use crate::heads::word_in;
use cmf::text::ITEMS;
use field::kind::Kind;

// The length of the longest of so many texts, one at least, that fill the bytes from one place up to another.
fn longest_of(image: &[u8], from: usize, end: usize, count: u8) -> Option<usize>
    requires { (from < length image.now) × (end ≤ length image.now) × (1 ≤ count) }
    ensures { IfSome result (λ longest. Texts image.now count from end longest) }
{
    // The first is there, and has none before it to be longer than.
    let first = image[from] as usize;
    let mut at = from + 1 + first;
    let mut most = first;
    for _ in 1..count {
        if end <= at {
            return None;
        }
        let n = image[at] as usize;
        at += 1 + n;
        most = n.max(most);
    }
    if at != end {
        return None;
    }
    Some(most)
}

// Where the option at a place ends.
pub(crate) fn option_end(image: &[u8], at: usize) -> Option<usize>
    requires { (at + 10 < length image.now) × (byte_at image.now at % 32 ≡ 0x14) }
    ensures { IfSome result (λ end. Component image.now at end (option_at image.now at ∷ [])) }
{
    let items = image[at + 7];
    if items <= image[at + 9] {
        return None;
    }
    let end = at + image[at + 6] as usize;
    if image.len() < end {
        return None;
    }
    let longest = longest_of(image, at + ITEMS, end, items)?;
    if longest != image[at + 8] as usize {
        return None;
    }
    Some(end)
}

// Whether a number has no bit at or above so many.
fn is_in_bits(x: usize, bits: u8) -> bool
    requires { bits ≤ 32 }
    ensures { result ≡ true → x < 2 ^ bits }
{
    x >> (bits as usize) == 0
}

// Whether the switch at a place has a count of bits that it may have, and a default in them.
fn switch_fits(image: &[u8], at: usize) -> bool
    requires { at + 14 ≤ length image.now }
    ensures { result ≡ true → (1 ≤ byte_at image.now (at + 7))
        × (settings_fit (switch_at image.now at).kind (switch_at image.now at).default ≡ true) }
{
    let bits = image[at + 7];
    let x = word_in(image, at + 10) + 65536 * word_in(image, at + 12);
    1 <= bits && bits <= Kind::MAX_BITS && is_in_bits(x, bits)
}

// Where the switch at a place ends.
pub(crate) fn switch_end(image: &[u8], at: usize) -> Option<usize>
    requires { (at < length image.now) × (byte_at image.now at % 32 ≡ 0x13) }
    ensures { IfSome result (λ end. Held image.now at end 4) }
{
    if image.len() <= at + 14 {
        return None;
    }
    let end = at + image[at + 6] as usize;
    if image.len() < end || !switch_fits(image, at) {
        return None;
    }
    longest_of(image, at + 14, end, image[at + 7])?;
    Some(end)
}
