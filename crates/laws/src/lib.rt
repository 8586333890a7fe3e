// What every crate uses and what knows nothing of menus: reads and writes of byte slices that are total,
// triples, decimal digits, and in specs/ and proofs/ the choice, parts, overwriting and digits with their
// laws.
#![tactic(auto)]

pub mod digits;

ghost use Rattle.std.specs.Prelude.{◌≡◌, ◌/◌, length};
ghost use Rattle.laws.specs.Choice.{◌<?◌};
ghost use Rattle.laws.specs.Bytes.{byte_at, word_at, room};
ghost use Rattle.laws.specs.Parts.{put_at};

// The byte at a place, 0 past the end.
pub fn byte_at(s: &[u8], at: usize) -> u8
    ensures { result ≡ byte_at s.now at }
{
    s.get(at).copied().unwrap_or(0)
}

// The two bytes at a place, low byte first, 0 past the end.
pub fn word_at(s: &[u8], at: usize) -> u16
    ensures { result ≡ word_at s.now at }
{
    if at < s.len() {
        u16::from_le_bytes([s[at], byte_at(s, at + 1)])
    } else {
        0
    }
}

// Whether there are n bytes from a place on.
pub fn room(s: &[u8], at: usize, n: usize) -> bool
    ensures { result ≡ room (length s.now) at n }
{
    at <= s.len() && n <= s.len() - at
}

// Whether a list of so many numbers has a k-th triple, counted from 0; by subtracting, so that nothing
// divides by 3.
pub fn has_triple(count: usize, k: usize) -> bool
    ensures { result ≡ k <? count / 3 }
{
    if count < 3 {
        return false;
    }
    let most = count - 3;
    k <= most && k <= most - k && k <= most - k - k
}

// Copies bytes to a place; where they do not fit nothing changes. The loop is no call of memmove, which the
// library for C would have to import.
pub fn put_bytes(s: &mut [u8], at: usize, bytes: &[u8])
    ensures { s.new ≡ put_at at bytes.now s.old }
{
    if room(s, at, bytes.len()) {
        for (i, byte) in bytes.iter().enumerate() {
            s[at + i] = *byte;
        }
    }
}
