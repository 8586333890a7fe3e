// What a component shows: the text of each kind, put into a row from a place on.
ghost use Rattle.std.specs.Prelude.{◌≡◌, ◌-◌, get_or, replicate};
ghost use Rattle.laws.specs.Choice.{when◌then◌else◌, ◌≤?◌};
ghost use Rattle.field.specs.Cells.{cells_of, work_of};
ghost use Rattle.texts.specs.Row.{Put};
ghost use Rattle.texts.specs.Texts.{hash, digit_char, sign_char, digit_cells, numeral_text, decimal};
ghost use Rattle.texts.specs.Texts.{count_text, aligned_right, padded_right, time_text, year_cells};
ghost use Rattle.texts.specs.Texts.{date_text, trigger_text, cells_text, width_of, field_text};
ghost use Rattle.cmf.specs.Readers.{text_bytes, item_place};

use crate::row::{BLANK, put, put_all, repeat};
use cmf::text::item_bytes;
use field::kind::Kind;
use field::numeral::Numeral;
use field::profile::profile_of;
use field::record::Field;
use field::settings::digit_count;
use field::value::load;
use field::work::{Work, in_range};
use laws::byte_at;
use laws::digits::{first_digit, lowest_digits};

fn digit_char(d: u32) -> u8
    ensures { result ≡ digit_char d }
{
    if d < 10 {
        b'0' + d as u8
    } else if d < 16 {
        b'A' + (d - 10) as u8
    } else {
        b' '
    }
}

fn sign_char(c: u32) -> u8
    ensures { result ≡ sign_char c }
{
    if c == 0 { b'-' } else { b'+' }
}

// The digits of a year.
pub fn year_cells(long: bool) -> u8
    ensures { result ≡ year_cells long }
{
    if long { 4 } else { 2 }
}

// How many cells of the display a kind takes.
pub fn width_of(kind: Kind) -> usize
    ensures { result ≡ width_of kind }
{
    match kind {
        Kind::Integer(_) | Kind::Switch(_) => profile_of(kind).cells as usize,
        Kind::Counter(s) => s.width as usize,
        Kind::Time(long) => if long { 8 } else { 5 },
        Kind::Date(long) => year_cells(long) as usize + 6,
        Kind::Option { longest, .. } => longest as usize,
        Kind::Trigger => 3,
    }
}

// A cell, 0 past the last.
fn cell_at(cells: &[u32], i: usize) -> u32
    ensures { result ≡ get_or cells.now i 0 }
{
    cells.get(i).copied().unwrap_or(0)
}

// The digits in count cells from one on.
fn put_digits(row: &mut [u8], at: usize, cells: &[u32], from: u8, count: u8) -> usize
    ensures { Put row.old at (digit_cells cells.now from count)
        row.new result }
{
    let first = from as usize;
    let mut end = at.min(row.len());
    for i in first..first + count as usize {
        end = put(row, end, digit_char(cell_at(cells, i)));
    }
    end
}

fn put_numeral(row: &mut [u8], at: usize, n: Numeral, cells: &[u32]) -> usize
    ensures { Put row.old at (numeral_text n cells.now) row.new result }
{
    if n.signs == 0 {
        return put_digits(row, at, cells, 0, n.digits);
    }
    let first = put(row, at, sign_char(cell_at(cells, 0)));
    put_digits(row, first, cells, 1, n.digits)
}

// The count lowest digits of a number.
fn put_decimal(row: &mut [u8], at: usize, count: u8, x: u32) -> usize
    ensures { Put row.old at (decimal count x) row.new result }
{
    let mut end = at.min(row.len());
    let mut rest = lowest_digits(x, count);
    for i in 0..count {
        let d = first_digit(rest, count - i);
        end = put(row, end, b'0' + d.digit as u8);
        rest = d.rest;
    }
    end
}

// A counter's number, given with 32,768 added, right aligned.
fn put_counter(row: &mut [u8], at: usize, width: u8, x: u32) -> usize
    ensures { Put row.old at (aligned_right width (count_text x)) row.new result }
{
    let w = width as usize;
    if x < 32768 {
        let size = 32768 - x;
        let n = digit_count(size as u64);
        let sign = repeat(row, at, BLANK, w.saturating_sub(1 + n as usize));
        let first = put(row, sign, b'-');
        return put_decimal(row, first, n, size);
    }
    let size = x - 32768;
    let n = digit_count(size as u64);
    let first = repeat(row, at, BLANK, w.saturating_sub(n as usize));
    put_decimal(row, first, n, size)
}

fn put_time(row: &mut [u8], at: usize, long: bool, cells: &[u32]) -> usize
    ensures { Put row.old at (time_text long cells.now) row.new result }
{
    let hours = put_decimal(row, at, 2, cell_at(cells, 0));
    let colon = put(row, hours, b':');
    let minutes = put_decimal(row, colon, 2, cell_at(cells, 1));
    if long {
        let colon = put(row, minutes, b':');
        return put_decimal(row, colon, 2, cell_at(cells, 2));
    }
    minutes
}

fn put_date(row: &mut [u8], at: usize, long: bool, cells: &[u32]) -> usize
    ensures { Put row.old at (date_text long cells.now) row.new result }
{
    let year = put_decimal(row, at, year_cells(long), cell_at(cells, 0));
    let dash = put(row, year, b'-');
    let month = put_decimal(row, dash, 2, cell_at(cells, 1));
    let dash = put(row, month, b'-');
    put_decimal(row, dash, 2, cell_at(cells, 2))
}

// An item of the option at a place, padded right.
fn put_item(row: &mut [u8], at: usize, image: &[u8], place: usize, item: u32, longest: u8) -> usize
    ensures { Put row.old at
        (padded_right longest (text_bytes image.now (item_place image.now place item)))
        row.new result }
{
    let text = item_bytes(image, place, item as usize);
    let n = text.len();
    let end = put_all(row, at, text);
    repeat(row, end, BLANK, (longest as usize).saturating_sub(n))
}

fn put_trigger(row: &mut [u8], at: usize) -> usize
    ensures { Put row.old at trigger_text row.new result }
{
    let star = put(row, at, b'[');
    let end = put(row, star, b'*');
    put(row, end, b']')
}

// What the cells of a visit show at the component at a place.
pub fn put_cells(
    row: &mut [u8],
    at: usize,
    image: &[u8],
    place: usize,
    kind: Kind,
    cells: &[u32],
) -> usize
    ensures { Put row.old at
        (cells_text image.now place kind cells.now) row.new result }
{
    match kind {
        Kind::Integer(f) => put_numeral(row, at, f.numeral(), cells),
        Kind::Counter(s) => put_counter(row, at, s.width, cell_at(cells, 0)),
        Kind::Time(long) => put_time(row, at, long, cells),
        Kind::Date(long) => put_date(row, at, long, cells),
        Kind::Switch(n) => put_numeral(row, at, Numeral::of_bits(n), cells),
        Kind::Option { longest, .. } => put_item(row, at, image, place, cell_at(cells, 0), longest),
        Kind::Trigger => put_trigger(row, at),
    }
}

// What the cells of a number show.
fn put_number(row: &mut [u8], at: usize, image: &[u8], place: usize, kind: Kind, x: u32) -> usize
    ensures { Put row.old at
        (cells_text image.now place kind (work_of (cells_of kind x)).cells) row.new result }
{
    let shown = Work::showing(kind, x);
    put_cells(row, at, image, place, kind, &shown.cells)
}

// What a field shows outside a visit, by the cells of its number.
fn put_value(
    row: &mut [u8],
    at: usize,
    image: &[u8],
    sheet: &[u8],
    place: usize,
    field: Field,
) -> usize
    ensures { Put row.old at
        (field_text image.now sheet.now place field) row.new result }
{
    let kind = field.kind;
    let x = load(sheet, field.sheet, profile_of(kind).bytes).number();
    if in_range(kind, x) {
        return put_number(row, at, image, place, kind, x);
    }
    repeat(row, at, b'#', width_of(kind))
}

// What an option shows outside a visit; its byte in the sheet is x.
fn put_option(
    row: &mut [u8],
    at: usize,
    image: &[u8],
    place: usize,
    x: u8,
    items: u8,
    longest: u8,
) -> usize
    ensures { Put row.old at
        (when x ≤? (items - 1) then padded_right longest
        (text_bytes image.now (item_place image.now place x)) else replicate longest hash)
        row.new result }
{
    if x as usize <= (items as usize).saturating_sub(1) {
        return put_item(row, at, image, place, x as u32, longest);
    }
    repeat(row, at, b'#', longest as usize)
}

// What a field shows outside a visit; for an option, which is one byte, and a trigger no cells are made.
pub fn put_field(
    row: &mut [u8],
    at: usize,
    image: &[u8],
    sheet: &[u8],
    place: usize,
    field: Field,
) -> usize
    ensures { Put row.old at
        (field_text image.now sheet.now place field) row.new result }
{
    let kind = field.kind;
    match kind {
        Kind::Option { items, longest } => put_option(
            row,
            at,
            image,
            place,
            byte_at(sheet, field.sheet.0),
            items,
            longest,
        ),
        Kind::Trigger => put_trigger(row, at),
        _ => put_value(row, at, image, sheet, place, field),
    }
}
