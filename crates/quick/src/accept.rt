// The check of an image without fault, in one quick walk: where anything gives it doubt, the check proper is
// asked for the refusal.
ghost use Rattle.std.specs.Prelude.{◌≡◌, true, ◌*◌, ◌<◌, ◌≤◌, length, IfSome};
ghost use Rattle.cmf.specs.Limits.{most_fields};
ghost use Rattle.cmf.specs.Grammar.{password_at};
ghost use Rattle.acceptance.specs.Check.{on_table, refusal_of};
ghost use Rattle.quick.specs.Accept.{Reaches, Within, Moves, Leaves};

use crate::claim::WORDS;
use crate::components::accept_component;
use crate::heads::{accept_head, next_of, submenu_of};
use crate::position::Position;
use crate::run::run;
use crate::tally::Tally;
use acceptance::line_place::LinePlace;
use acceptance::shared::prolog_refusal;
use cmf::image::Image;
use cmf::title::read_title;

// One component more, of any kind but an option: one that the loop has left is in doubt. It is at fault, or
// it has one empty item and ends the image.
fn take_other(image: &[u8], extent: usize, s: Position, marks: &mut [u64]) -> Option<Position>
    requires { Within image.now extent s marks.old }
    ensures { IfSome result (λ r. Moves image.now extent s r marks.old marks.new
        × (s.tally.at < r.tally.at)) }
{
    let at = s.tally.at;
    let p = at + at % 2;
    if image.len() <= p {
        return None;
    }
    let tally = accept_component(image, extent, p, s.tally, marks)?;
    let done = image[p] / 128 % 2 == 1;
    Some(Position { tally, done, ..s })
}

// From a position within a line to the end of this line, or of a later one of its table.
fn pass_lines(image: &[u8], extent: usize, start: Position, marks: &mut [u64]) -> Option<Position>
    requires { Within image.now extent start marks.old }
    ensures { IfSome result (λ r. (r.done ≡ true)
        × Moves image.now extent start r marks.old marks.new) }
{
    let mut s = start;
    while s.tally.at < image.len() {
        let plain = run(image, extent, s, marks);
        if plain.done {
            return Some(plain);
        }
        s = take_other(image, extent, plain, marks)?;
        if s.done {
            return Some(s);
        }
    }
    None
}

// After a line's components, which end where the walk is: its submenu, if it has one; `below` levels are left
// for it.
#[cycle(accept_submenu_accept_table)]
fn accept_submenu(
    image: &[u8],
    extent: usize,
    below: usize,
    line: usize,
    w: Tally,
    marks: &mut [u64],
) -> Option<Tally>
    requires { (password_at image.now line ≤ length image.now) × (extent ≤ 64 * length marks.old) }
    ensures { IfSome result (λ t. Leaves image.now extent below line w t marks.old marks.new) }
{
    if image[line] / 8 % 2 == 1 {
        let t = accept_table(image, extent, below, submenu_of(image, line), w, marks)?;
        return Some(t.past(w.at));
    }
    Some(w)
}

// The table at a place; `left` levels are left, its own among them.
#[cycle(accept_submenu_accept_table)]
fn accept_table(
    image: &[u8],
    extent: usize,
    left: usize,
    table: usize,
    w: Tally,
    marks: &mut [u64],
) -> Option<Tally>
    requires { extent ≤ 64 * length marks.old }
    ensures { IfSome result (λ t. Reaches extent
        (on_table image.now extent most_fields left table) w t marks.old marks.new) }
{
    let title = read_title(image, table);
    if title.refusal.is_some() || left == 0 {
        return None;
    }
    let below = left - 1;
    let mut v = w.past(title.end);
    let mut next = LinePlace::first(title.line.0);
    // Lines are passed several at a time, so their number is no counter of a `for`.
    while next.number < Image::MAX_TABLE_LINES {
        let end = accept_head(image, next, v)?;
        let head = Position::headed(v, next.number, next.at, end);
        let s = pass_lines(image, extent, head, marks)?;
        let line = s.line.0;
        v = accept_submenu(image, extent, below, line, s.tally, marks)?;
        if image[line] / 2 % 2 == 1 {
            return Some(v);
        }
        next = LinePlace {
            number: s.n + 1,
            before: line,
            at: next_of(image, line),
        };
    }
    None
}

// Whether nothing gives the walk doubt: then the check would refuse nothing.
pub fn is_accepted(image: &[u8], extent: usize) -> bool
    ensures { result ≡ true → refusal_of image.now extent ≡ 0 }
{
    if prolog_refusal(image).is_some() || Image::MAX_SHEET < extent {
        return false;
    }
    let mut marks = [0u64; WORDS];
    let start = Tally {
        at: 0,
        lines: 0,
        fields: 0,
    };
    accept_table(
        image,
        extent,
        Image::MAX_DEPTH,
        Image::PROLOG,
        start,
        &mut marks,
    )
    .is_some()
}
