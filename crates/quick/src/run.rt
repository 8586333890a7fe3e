// The quick walk's own loop: constant strings, options and plain heads, one after the other, with no call for
// anything else in it.
ghost use Rattle.std.specs.Prelude.{◌≡◌, true, false, ◌+◌, ◌*◌, ◌%◌, ◌<◌, ◌≤◌, length, IfSome, MatchOption};
ghost use Rattle.laws.specs.Bytes.{byte_at};
ghost use Rattle.cmf.specs.Grammar.{password_at};
ghost use Rattle.quick.specs.Accept.{Passes, Within, Moves, Next};

use crate::claim::claim_byte;
use crate::components::{is_padded_to_even, string_end};
use crate::heads::{next_of, plain_end, word_in};
use crate::position::Position;
use crate::tally::Tally;
use crate::texts::option_end;
use cmf::image::Image;

// The option at p with its byte in the sheet; in doubt no byte is marked.
fn take_option(image: &[u8], extent: usize, p: usize, w: Tally, marks: &mut [u64]) -> Option<Tally>
    requires { (p + 10 < length image.now) × (byte_at image.now p % 32 ≡ 0x14)
        × (extent ≤ 64 * length marks.old) }
    ensures { MatchOption result (marks.new ≡ marks.old) (λ t. Passes image.now extent p w t marks.old
        marks.new) }
{
    if Image::MAX_FIELDS <= w.fields {
        return None;
    }
    let end = option_end(image, p)?;
    if !claim_byte(marks, extent, word_in(image, p + 4)) {
        return None;
    }
    Some(w.fielded(end))
}

// The component at p with its tag, if it is a constant string or an option without fault; no other is taken.
fn take_plain(
    image: &[u8],
    extent: usize,
    p: usize,
    tag: u8,
    w: Tally,
    marks: &mut [u64],
) -> Option<Tally>
    requires { (p + 10 < length image.now) × (tag ≡ byte_at image.now p)
        × (extent ≤ 64 * length marks.old) }
    ensures { MatchOption result (marks.new ≡ marks.old) (λ t. Passes image.now extent p w t marks.old
        marks.new) }
{
    if tag % 64 == 0x15 {
        return Some(w.past(string_end(image, p)?));
    }
    if tag % 32 == 0x14 {
        return take_option(image, extent, p, w, marks);
    }
    None
}

// After the line at a place, which is done: the line that it leads to, where its head is a plain one.
fn next_plain(image: &[u8], n: usize, line: usize, w: Tally) -> Option<Position>
    requires { password_at image.now line ≤ length image.now }
    ensures { IfSome result (λ s. (s.done ≡ false) × Next image.now n line w s) }
{
    if Image::MAX_TABLE_LINES - 1 <= n || Image::MAX_LINES <= w.lines {
        return None;
    }
    if image[line] / 2 % 2 == 1 || image[line] / 8 % 2 == 1 {
        return None;
    }
    let next = next_of(image, line);
    let end = plain_end(image, line, next, w.at)?;
    Some(Position::headed(w, n + 1, next, end))
}

// From a position within a line as far as all is plain and eleven bytes of a component, the fewest that an
// option has, and one before them are in the image.
pub(crate) fn run(image: &[u8], extent: usize, start: Position, marks: &mut [u64]) -> Position
    requires { Within image.now extent start marks.old }
    ensures { Moves image.now extent start result marks.old marks.new }
{
    let mut s = start;
    while s.tally.at + 11 < image.len() {
        let at = s.tally.at;
        if !is_padded_to_even(image, at) {
            return s;
        }
        let p = at + at % 2;
        let tag = image[p];
        let Some(tally) = take_plain(image, extent, p, tag, s.tally, marks) else {
            return s;
        };
        if tag / 128 % 2 == 1 {
            let Some(next) = next_plain(image, s.n, s.line.0, tally) else {
                return Position {
                    tally,
                    done: true,
                    ..s
                };
            };
            s = next;
        } else {
            s.tally = tally;
        }
    }
    s
}
