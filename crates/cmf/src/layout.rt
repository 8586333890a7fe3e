// The layout of a component by its code: how many bytes it has, which texts follow, and whether section 7
// gives it.
ghost use Rattle.std.specs.Prelude.{◌≡◌, ◌<◌, ◌≤◌, length};
ghost use Rattle.cmf.specs.Readers.{fixed_bytes, text_count, given};

use crate::text::Run;
use laws::byte_at;

// The bytes before a component's texts, its tag among them.
#[tactic(auto, using(laws::proofs::Cases::choices), unfolding(crate::specs::Readers::fixed_bytes))]
pub(crate) fn fixed_bytes(code: u8, edit: u8) -> usize
    ensures { (result ≡ fixed_bytes code edit) × (result ≤ 23) }
{
    match code {
        0x00..=0x04 => 7,
        0x05..=0x0a => 8,
        0x0b | 0x0c => 10,
        0x0d => 15,
        0x0e => 23,
        0x0f => 9,
        0x10 => 8,
        0x11 => 10,
        0x12 => 9,
        0x13 => 14,
        0x14 => 10,
        0x15 if edit == 1 => 6,
        0x15 => 1,
        _ => 4,
    }
}

// How many texts follow them.
#[tactic(auto, using(laws::proofs::Cases::choices), unfolding(crate::specs::Readers::text_count))]
pub(crate) fn text_count(image: &[u8], at: usize, code: u8) -> usize
    requires { at < length image.now }
    ensures { result ≡ text_count image.now at code }
{
    match code {
        0x13 | 0x14 => byte_at(image, at + 7) as usize,
        0x15 | 0x16 => 1,
        _ => 0,
    }
}

// Whether length and field-width of an option agree with its items.
#[tactic(auto, using(laws::proofs::Cases::choices), unfolding(crate::specs::Readers::given))]
pub(crate) fn option_given(image: &[u8], at: usize, t: Run) -> bool
    requires { at < length image.now }
    ensures { result ≡ given image.now at 0x14 0 t }
{
    let length = byte_at(image, at + 6) as usize;
    let width = byte_at(image, at + 8);
    at + length == t.end && width == t.longest
}

// Whether section 7 gives the component, which is no option, and it is not left for later.
#[tactic(auto, using(laws::proofs::Cases::choices), unfolding(crate::specs::Readers::given))]
pub(crate) fn is_given(image: &[u8], at: usize, code: u8, edit: u8, t: Run) -> bool
    requires { (at < length image.now) × (code ≡ 0x14 → ⊥) }
    ensures { result ≡ given image.now at code edit t }
{
    match code {
        0x00..=0x0a | 0x0d | 0x0f..=0x12 => true,
        0x13 => at + byte_at(image, at + 6) as usize == t.end,
        0x15 => edit == 0,
        _ => code == 0x17,
    }
}
