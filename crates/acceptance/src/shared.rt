// What the check and the quick walk ask alike, the prolog, and the check's test of padding before a place.
ghost use Rattle.std.specs.Prelude.{◌≡◌, ◌+◌, ◌<◌};
ghost use Rattle.laws.specs.Choice.{◌and◌, ◌=?◌};
ghost use Rattle.laws.specs.Bytes.{byte_at};
ghost use Rattle.acceptance.specs.Check.{padded, prolog_refusal};

use cmf::image::Image;
use cmf::refusal::Refusal;
use laws::byte_at;

// Whether what is at a place follows what ended before it at once, or after one zero byte.
#[tactic(auto, using(laws::proofs::Cases::choices), unfolding(crate::specs::Check::padded))]
pub fn is_padded(image: &[u8], at: usize, place: usize) -> bool
    ensures { result ≡ padded image.now at place }
{
    at == place || byte_at(image, at) == 0
}

// The prolog's refusal.
#[tactic(auto, using(laws::proofs::Cases::choices), unfolding(crate::specs::Check::prolog_refusal))]
pub fn prolog_refusal(image: &[u8]) -> Option<Refusal>
    ensures { result ≡ prolog_refusal image.now }
{
    if image.len() < Image::PROLOG || Image::MAX_BYTES < image.len() {
        return Some(Refusal::Length);
    }
    if !has_name(image) {
        return Some(Refusal::Name);
    }
    if !has_pair(image, 3, 0, 4) {
        return Some(Refusal::Version);
    }
    if !has_pair(image, 8, 0xff, 0xfe) {
        return Some(Refusal::Order);
    }
    None
}

#[tactic(auto, using(laws::proofs::Cases::choices))]
fn has_name(image: &[u8]) -> bool
    ensures { result ≡ (byte_at image.now 0 =? 0x43)
        and ((byte_at image.now 1 =? 0x4d) and (byte_at image.now 2 =? 0x46)) }
{
    byte_at(image, 0) == b'C' && byte_at(image, 1) == b'M' && byte_at(image, 2) == b'F'
}

#[tactic(auto, using(laws::proofs::Cases::choices))]
fn has_pair(image: &[u8], at: usize, low: u8, high: u8) -> bool
    requires { at < 10 }
    ensures { result ≡ (byte_at image.now at =? low)
        and (byte_at image.now (at + 1) =? high) }
{
    byte_at(image, at) == low && byte_at(image, at + 1) == high
}
