// The components of a line in the quick walk, but options: a constant string is told here, a field in
// `fixed`.
ghost use Rattle.std.specs.Prelude.{◌≡◌, true, [], ◌+◌, ◌*◌, ◌%◌, ◌<◌, ◌≤◌, length, IfSome};
ghost use Rattle.laws.specs.Bytes.{byte_at};
ghost use Rattle.cmf.specs.Readers.{even_from};
ghost use Rattle.cmf.specs.Layouts.{Aligned, Component};
ghost use Rattle.acceptance.specs.Check.{padded};
ghost use Rattle.quick.specs.Accept.{Passes};

use crate::fixed::accept_field;
use crate::tally::Tally;

// Whether what is at the first even place from `at` on follows it at once or after a zero byte.
pub(crate) fn is_padded_to_even(image: &[u8], at: usize) -> bool
    requires { even_from at < length image.now }
    ensures value { result ≡ padded image.now at (even_from at) }
    ensures aligned { result ≡ true → Aligned image.now 0 at (even_from at) }
{
    at % 2 == 0 || image[at] == 0
}

// Where the constant string at a place ends, whose length byte is there.
pub(crate) fn string_end(image: &[u8], at: usize) -> Option<usize>
    requires { (at + 1 < length image.now) × (byte_at image.now at % 64 ≡ 0x15) }
    ensures { IfSome result (λ end. Component image.now at end []) }
{
    let end = at + 2 + image[at + 1] as usize;
    if image.len() < end {
        return None;
    }
    Some(end)
}

// The component at p, which is the first even place after where the walk is.
pub(crate) fn accept_component(
    image: &[u8],
    extent: usize,
    p: usize,
    w: Tally,
    marks: &mut [u64],
) -> Option<Tally>
    requires { (p < length image.now) × (p ≡ even_from w.at) × (extent ≤ 64 * length marks.old) }
    ensures { IfSome result (λ t. Aligned image.now 0 w.at p
        × Passes image.now extent p w t marks.old marks.new) }
{
    if !is_padded_to_even(image, w.at) {
        return None;
    }
    if image[p] % 64 == 0x15 {
        if image.len() <= p + 1 {
            return None;
        }
        return Some(w.past(string_end(image, p)?));
    }
    accept_field(image, extent, p, w, marks)
}
