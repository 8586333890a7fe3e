// The two tables that every key and every check goes by: a row for each kind, and a row for each cell.
ghost use Rattle.std.specs.Prelude.{◌≡◌, ℕ, Bool, List};
ghost use Rattle.field.specs.Formats.{base_of};
ghost use Rattle.field.specs.Profiles.{moving, sliding, parted, firing, stepping, profile_of, ends};
ghost use Rattle.field.specs.Profiles.{flag, digit, counter_cell, time_cell, option_cell, year_cell};
ghost use Rattle.field.specs.Profiles.{month_cell, day_cell, end_of, cell_of, open_day};
ghost use Rattle.field.specs.Profiles.{held_to};

use crate::calendar::month_end;
use crate::kind::{CounterSettings, Format, Kind};
use crate::numeral::bits_in;
use crate::work::Work;

// A kind's cells and bytes, and what keys do: LEFT and RIGHT move, LEFT and RIGHT step, ENTER goes from part
// to part, cursor keys fire.
#[derive(Clone, Copy)]
pub struct Profile {
    pub cells: u8,
    pub bytes: u8,
    pub moves: bool,
    pub slides: bool,
    pub parts: bool,
    pub fires: bool,
}

// A cell's ends and step; whether UP and DOWN set it, and whether digit keys do.
#[derive(Clone, Copy)]
pub struct Cell {
    pub low: u32,
    pub high: u32,
    pub step: u32,
    pub sets: bool,
    pub typed: bool,
}

impl Profile {
    // LEFT and RIGHT move between cells.
    fn moving(cells: u8, bytes: u8) -> Self
        ensures { result ≡ moving cells bytes }
    {
        Profile {
            moves: true,
            ..Self::stepping(cells, bytes)
        }
    }

    // LEFT and RIGHT step the value.
    fn sliding(cells: u8, bytes: u8) -> Self
        ensures { result ≡ sliding cells bytes }
    {
        Profile {
            slides: true,
            ..Self::stepping(cells, bytes)
        }
    }

    // ENTER goes from part to part.
    fn parted(cells: u8, bytes: u8) -> Self
        ensures { result ≡ parted cells bytes }
    {
        Profile {
            parts: true,
            ..Self::stepping(cells, bytes)
        }
    }

    // Any cursor key fires.
    fn firing(cells: u8, bytes: u8) -> Self
        ensures { result ≡ firing cells bytes }
    {
        Profile {
            fires: true,
            ..Self::stepping(cells, bytes)
        }
    }

    // Only UP and DOWN step.
    fn stepping(cells: u8, bytes: u8) -> Self
        ensures { result ≡ stepping cells bytes }
    {
        Profile {
            cells,
            bytes,
            moves: false,
            slides: false,
            parts: false,
            fires: false,
        }
    }
}

// A kind's row.
pub fn profile_of(kind: Kind) -> Profile
    ensures { result ≡ profile_of kind }
{
    match kind {
        Kind::Integer(f) => Profile::moving(f.signs() + f.digits_in(), f.bytes()),
        Kind::Counter(_) => Profile::stepping(1, 2),
        Kind::Time(true) => Profile::parted(3, 3),
        Kind::Time(false) => Profile::parted(2, 2),
        Kind::Date(true) => Profile::parted(3, 4),
        Kind::Date(false) => Profile::parted(3, 3),
        Kind::Switch(n) => Profile::moving(bits_in(n), 4),
        Kind::Option { .. } => Profile::sliding(1, 1),
        Kind::Trigger => Profile::firing(1, 0),
    }
}

impl Cell {
    fn ends(low: u32, high: u32, step: u32) -> Self
        ensures { result ≡ ends low high step }
    {
        Cell {
            low,
            high,
            step,
            sets: false,
            typed: false,
        }
    }

    // A sign or a bit.
    fn flag() -> Self
        ensures { result ≡ flag }
    {
        Cell {
            sets: true,
            ..Self::ends(0, 1, 1)
        }
    }

    fn digit(f: Format) -> Self
        ensures { result ≡ digit (base_of f) }
    {
        Cell {
            typed: true,
            ..Self::ends(0, f.base() as u32 - 1, 1)
        }
    }

    pub(crate) fn counter(s: CounterSettings) -> Self
        ensures { result ≡ counter_cell s }
    {
        Self::ends(s.min as u32, s.max as u32, s.step as u32)
    }

    pub(crate) fn time(i: usize) -> Self
        ensures { result ≡ time_cell i }
    {
        if i == 0 {
            Self::ends(0, Kind::MAX_HOUR as u32, 1)
        } else {
            Self::ends(0, Kind::MAX_MINUTE as u32, 1)
        }
    }

    pub(crate) fn year(long: bool) -> Self
        ensures { result ≡ year_cell long }
    {
        if long {
            Self::ends(0, Kind::MAX_YEAR as u32, 1)
        } else {
            Self::ends(0, Kind::MAX_SHORT_YEAR as u32, 1)
        }
    }

    pub(crate) fn month() -> Self
        ensures { result ≡ month_cell }
    {
        Self::ends(1, Kind::MAX_MONTH as u32, 1)
    }

    pub(crate) fn day(last: u32) -> Self
        ensures { result ≡ day_cell last }
    {
        Self::ends(1, last, 1)
    }

    pub(crate) fn option(items: u8) -> Self
        ensures { result ≡ option_cell items }
    {
        Self::ends(0, items.saturating_sub(1) as u32, 1)
    }

    fn of_integer(f: Format, i: usize) -> Self
        ensures { (cs : List ℕ) → result ≡ cell_of (Kind.Integer f) cs i }
    {
        if i < f.signs() as usize {
            Self::flag()
        } else {
            Self::digit(f)
        }
    }

    fn of_date(long: bool, work: Work, i: usize) -> Self
        ensures { result ≡ cell_of (Kind.Date long) work.cells i }
    {
        match i {
            0 => Self::year(long),
            1 => Self::month(),
            _ => Self::day(end_of(work)),
        }
    }
}

// The end of the month that a date's cells show. The calendar repeats after 400 years, so that a short year
// needs no 2000 added.
fn end_of(work: Work) -> u32
    ensures { (long : Bool) → result ≡ end_of long work.cells }
{
    month_end(work.cells[0], work.cells[1])
}

// The row of a kind's cell among those of a working copy.
pub fn cell_of(kind: Kind, work: Work, i: usize) -> Cell
    ensures { result ≡ cell_of kind work.cells i }
{
    match kind {
        Kind::Integer(f) => Cell::of_integer(f, i),
        Kind::Counter(s) => Cell::counter(s),
        Kind::Time(_) => Cell::time(i),
        Kind::Date(long) => Cell::of_date(long, work, i),
        Kind::Switch(_) => Cell::flag(),
        Kind::Option { items, .. } => Cell::option(items),
        Kind::Trigger => Cell::ends(0, 0, 1),
    }
}

// Whether a cell is a date's day whose part is not chosen yet.
fn is_open_day(kind: Kind, work: Work, i: usize) -> bool
    ensures { result ≡ open_day kind work i }
{
    match kind {
        Kind::Date(_) => i == Kind::DAY_PART as usize && work.at < Kind::DAY_PART,
        _ => false,
    }
}

// The row that a cell of a working copy is held to.
pub(crate) fn held_to(kind: Kind, work: Work, i: usize) -> Cell
    ensures { result ≡ held_to kind work i }
{
    if is_open_day(kind, work, i) {
        Cell::day(Kind::MAX_DAY as u32)
    } else {
        cell_of(kind, work, i)
    }
}
