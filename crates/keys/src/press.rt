// A visit by keys: one function a key, each from a working copy and its rows of the tables to the next
// working copy. ENTER takes the kind.
ghost use Rattle.std.specs.Prelude.{◌≡◌, ◌+◌, ◌<◌, true, SomeIff, MatchOption};
ghost use Rattle.keys.specs.Keys.{taken, flash, chosen, with_chosen, choosing, raised, lowered, up_key};
ghost use Rattle.keys.specs.Keys.{down_key, left_key, right_key, digit_key, part_after, capped, enter_key};

use field::kind::Kind;
use field::profile::{Cell, Profile, cell_of, profile_of};
use field::work::Work;

// What a key came to. Taken: the visit goes on. Flash: it stays as it was. NextPart: ENTER went to the next
// part of a time or date. Done: the last ENTER. Fired: a cursor key on a trigger. Passed: ENTER on a trigger.
#[derive(Clone, Copy)]
pub enum Outcome {
    Taken,
    Flash,
    NextPart,
    Done,
    Fired,
    Passed,
}

#[derive(Clone, Copy)]
pub struct Pressed {
    pub work: Work,
    pub outcome: Outcome,
}

impl Pressed {
    fn new(work: Work, outcome: Outcome) -> Self
        ensures { result ≡ record { work = work; outcome = outcome } }
    {
        Pressed { work, outcome }
    }
}

fn chosen(w: Work) -> u64
    ensures { (result ≡ chosen w) × (result < 4294967296) }
{
    w.cell(w.at as usize)
}

fn with_chosen(mut w: Work, x: u32) -> Work
    ensures { result ≡ with_chosen w x }
{
    let at = w.at as usize;
    if at < Work::CELLS {
        w.cells[at] = x;
    }
    w
}

// The cell on the right of the chosen one, where there is one.
fn next_cell(w: Work, p: Profile) -> Option<u8>
    ensures { SomeIff result (w.at + 1 < p.cells) (w.at + 1) }
{
    w.at.checked_add(1).filter(|at| *at < p.cells)
}

// Another cell chosen; a flash where there is none.
fn choose(w: Work, at: Option<u8>) -> Pressed
    ensures { MatchOption at (result ≡ flash w) (λ i. result ≡ taken (choosing w i)) }
{
    match at {
        Some(at) => Pressed::new(Work { at, ..w }, Outcome::Taken),
        None => Pressed::new(w, Outcome::Flash),
    }
}

// The sum is made in 64 bits, so that it cannot wrap.
fn raise(w: Work, c: Cell) -> Pressed
    ensures { result ≡ raised c w }
{
    if c.sets {
        return Pressed::new(with_chosen(w, c.high), Outcome::Taken);
    }
    let x = chosen(w) + c.step as u64;
    if x <= c.high as u64 {
        Pressed::new(with_chosen(w, x as u32), Outcome::Taken)
    } else {
        Pressed::new(w, Outcome::Flash)
    }
}

fn lower(w: Work, c: Cell) -> Pressed
    ensures { result ≡ lowered c w }
{
    if c.sets {
        return Pressed::new(with_chosen(w, c.low), Outcome::Taken);
    }
    let x = chosen(w);
    let step = c.step as u64;
    if c.low as u64 + step <= x {
        Pressed::new(with_chosen(w, (x - step) as u32), Outcome::Taken)
    } else {
        Pressed::new(w, Outcome::Flash)
    }
}

pub fn up(w: Work, p: Profile, c: Cell) -> Pressed
    ensures { result ≡ up_key p c w }
{
    if p.fires {
        Pressed::new(w, Outcome::Fired)
    } else if p.slides {
        Pressed::new(w, Outcome::Flash)
    } else {
        raise(w, c)
    }
}

pub fn down(w: Work, p: Profile, c: Cell) -> Pressed
    ensures { result ≡ down_key p c w }
{
    if p.fires {
        Pressed::new(w, Outcome::Fired)
    } else if p.slides {
        Pressed::new(w, Outcome::Flash)
    } else {
        lower(w, c)
    }
}

pub fn left(w: Work, p: Profile, c: Cell) -> Pressed
    ensures { result ≡ left_key p c w }
{
    if p.fires {
        Pressed::new(w, Outcome::Fired)
    } else if p.moves {
        choose(w, w.at.checked_sub(1))
    } else if p.slides {
        lower(w, c)
    } else {
        Pressed::new(w, Outcome::Flash)
    }
}

pub fn right(w: Work, p: Profile, c: Cell) -> Pressed
    ensures { result ≡ right_key p c w }
{
    if p.fires {
        Pressed::new(w, Outcome::Fired)
    } else if p.moves {
        choose(w, next_cell(w, p))
    } else if p.slides {
        raise(w, c)
    } else {
        Pressed::new(w, Outcome::Flash)
    }
}

// A digit key, 0 to 9.
pub fn digit(w: Work, p: Profile, c: Cell, d: u8) -> Pressed
    ensures { result ≡ digit_key p c w d }
{
    if c.typed {
        let at = next_cell(w, p).unwrap_or(w.at);
        Pressed::new(
            Work {
                at,
                ..with_chosen(w, d as u32)
            },
            Outcome::Taken,
        )
    } else {
        Pressed::new(w, Outcome::Flash)
    }
}

// The part of a time or date after the chosen one, where there is one.
fn next_part(w: Work, p: Profile) -> Option<u8>
    ensures { SomeIff result (part_after p w ≡ true) (w.at + 1) }
{
    if p.parts { next_cell(w, p) } else { None }
}

// The chosen part, at most its high end.
#[tactic(auto, unfolding(crate::specs::Keys::capped))]
fn cap(w: Work, kind: Kind) -> Work
    ensures { result ≡ capped kind w }
{
    let high = cell_of(kind, w, w.at as usize).high;
    with_chosen(w, chosen(w).min(high as u64) as u32)
}

pub fn enter(w: Work, kind: Kind) -> Pressed
    ensures { result ≡ enter_key kind w }
{
    let p = profile_of(kind);
    if p.fires {
        return Pressed::new(w, Outcome::Passed);
    }
    match next_part(w, p) {
        Some(at) => Pressed::new(cap(Work { at, ..w }, kind), Outcome::NextPart),
        None if w.stores(kind) => Pressed::new(w, Outcome::Done),
        None => Pressed::new(w, Outcome::Flash),
    }
}
