// Fields of the quick walk, but options: integers, counters, times, dates and triggers, which have no texts,
// are told here by a few tests on their bytes.
ghost use Rattle.std.specs.Prelude.{◌≡◌, true, [], ◌∷◌, ◌+◌, ◌*◌, ◌%◌, ◌<◌, ◌≤◌, ◌⊎◌, length, IfSome};
ghost use Rattle.laws.specs.Bytes.{byte_at, word_at};
ghost use Rattle.field.specs.Calendar.{month_end};
ghost use Rattle.field.specs.Cells.{biased, in_range};
ghost use Rattle.field.specs.Settings.{step_fits, width_fits};
ghost use Rattle.field.specs.declared.kind.Kind.TheVariants.{Counter};
ghost use Rattle.cmf.specs.Layouts.{Component, counter_settings_at, trigger_at};
ghost use Rattle.quick.specs.Accept.{Held, Passes};

use crate::claim::claim;
use crate::heads::word_in;
use crate::tally::Tally;
use crate::texts::switch_end;
use cmf::image::Image;
use field::calendar::month_end;
use field::kind::{CounterSettings, Kind};
use field::numeral::is_in_code;
use field::settings::counted_cells;

// The number of one byte or of two at a place.
fn number_in(image: &[u8], at: usize, size: usize) -> usize
    requires inside { at + size ≤ length image.now }
    requires sizes { (1 ≤ size) × (size ≤ 2) }
    ensures byte { size ≡ 1 → result ≡ byte_at image.now at }
    ensures word { size ≡ 2 → result ≡ word_at image.now at }
{
    if size == 1 {
        return image[at] as usize;
    }
    word_in(image, at)
}

// Where the integer at a place ends, whose code gives it one byte or two.
fn integer_end(image: &[u8], at: usize, code: usize, size: usize) -> Option<usize>
    requires tag { (at < length image.now) × (byte_at image.now at % 32 ≡ code) }
    requires sizes { ((size ≡ 1) × (code ≤ 0x04)) ⊎ ((size ≡ 2) × (0x04 < code) × (code ≤ 0x0a)) }
    ensures { IfSome result (λ end. Held image.now at end size) }
{
    let end = at + 6 + size;
    if image.len() < end || !is_in_code(code, number_in(image, at + 6, size)) {
        return None;
    }
    Some(end)
}

// The signed number at a place, with 32,768 added.
fn biased_in(image: &[u8], at: usize) -> u16
    requires { at + 1 < length image.now }
    ensures { result ≡ biased (word_at image.now at) }
{
    ((word_in(image, at) + 32768) % 65536) as u16
}

fn counter_settings(image: &[u8], at: usize) -> CounterSettings
    requires { at + 15 ≤ length image.now }
    ensures { result ≡ counter_settings_at image.now at }
{
    CounterSettings {
        min: biased_in(image, at + 6),
        max: biased_in(image, at + 8),
        step: word_in(image, at + 10) as u16,
        width: image[at + 14],
    }
}

// Whether the default of the counter at a place, which has these settings, is in their range.
fn counter_in_range(image: &[u8], at: usize, s: CounterSettings) -> bool
    requires { at + 15 ≤ length image.now }
    ensures { result ≡ in_range (Counter s) (word_at image.now (at + 12)) }
{
    let x = biased_in(image, at + 12);
    s.min <= x && x <= s.max
}

// Whether the step of a counter is at least 1, as a signed number.
fn step_fits(s: CounterSettings) -> bool
    ensures { result ≡ step_fits s }
{
    1 <= s.step && s.step < 32768
}

// Whether the width of a counter is enough for min and for max.
fn width_fits(s: CounterSettings) -> bool
    ensures { result ≡ width_fits s }
{
    counted_cells(s.min) <= s.width && counted_cells(s.max) <= s.width
}

// Where the counter at a place ends.
fn counter_end(image: &[u8], at: usize) -> Option<usize>
    requires { (at < length image.now) × (byte_at image.now at % 32 ≡ 0x0d) }
    ensures { IfSome result (λ end. Held image.now at end 2) }
{
    let end = at + 15;
    if image.len() < end {
        return None;
    }
    let s = counter_settings(image, at);
    if !counter_in_range(image, at, s) || !step_fits(s) || !width_fits(s) {
        return None;
    }
    Some(end)
}

// Where the time at a place ends, which has three bytes with seconds and two without.
fn time_end(image: &[u8], at: usize, size: usize) -> Option<usize>
    requires inside { at < length image.now }
    requires sizes { ((size ≡ 3) × (byte_at image.now at % 32 ≡ 0x0f))
        ⊎ ((size ≡ 2) × (byte_at image.now at % 32 ≡ 0x10)) }
    ensures { IfSome result (λ end. Held image.now at end size) }
{
    let end = at + 6 + size;
    if image.len() < end || Kind::MAX_HOUR < image[at + 6] || Kind::MAX_MINUTE < image[at + 7] {
        return None;
    }
    if size == 3 && Kind::MAX_SECOND < image[at + 8] {
        return None;
    }
    Some(end)
}

// Whether the date at a place, of a year that is in range, has a month and a day of that month. A short year
// is given as it is: with 2000 added it has the same months.
fn date_fits(image: &[u8], at: usize, year: usize) -> bool
    requires { (at + 8 ≤ length image.now) × (year < 65536) }
    ensures { result ≡ true
        → ((1 ≤ byte_at image.now (at + 7)) × (byte_at image.now (at + 7) ≤ 12))
        × ((1 ≤ byte_at image.now (at + 6)) × (byte_at image.now (at + 6)
        ≤ month_end year (byte_at image.now (at + 7)))) }
{
    let month = image[at + 7];
    let day = image[at + 6];
    if month < 1 || Kind::MAX_MONTH < month || day < 1 {
        return false;
    }
    day as u32 <= month_end(year as u32, month as u32)
}

// Where the date at a place ends, which has four bytes with a year of two of them and three with one of one.
fn date_end(image: &[u8], at: usize, size: usize) -> Option<usize>
    requires inside { at < length image.now }
    requires sizes { ((size ≡ 4) × (byte_at image.now at % 32 ≡ 0x11))
        ⊎ ((size ≡ 3) × (byte_at image.now at % 32 ≡ 0x12)) }
    ensures { IfSome result (λ end. Held image.now at end size) }
{
    let end = at + 6 + size;
    if image.len() < end {
        return None;
    }
    let year = number_in(image, at + 8, size - 2);
    let last = if size == 4 {
        Kind::MAX_YEAR as usize
    } else {
        Kind::MAX_SHORT_YEAR as usize
    };
    if last < year || !date_fits(image, at, year) {
        return None;
    }
    Some(end)
}

// Where a field, no option, ends in the image, and how many bytes it has in the sheet.
fn measure_of(image: &[u8], at: usize) -> Option<(usize, usize)>
    requires { at < length image.now }
    ensures { IfSome result (λ m. Held image.now at m.0 m.1) }
{
    let code = (image[at] % 32) as usize;
    match code {
        0x00..=0x04 => Some((integer_end(image, at, code, 1)?, 1)),
        0x05..=0x0a => Some((integer_end(image, at, code, 2)?, 2)),
        0x0d => Some((counter_end(image, at)?, 2)),
        0x0f => Some((time_end(image, at, 3)?, 3)),
        0x10 => Some((time_end(image, at, 2)?, 2)),
        0x11 => Some((date_end(image, at, 4)?, 4)),
        0x12 => Some((date_end(image, at, 3)?, 3)),
        0x13 => Some((switch_end(image, at)?, 4)),
        _ => None,
    }
}

// Where the trigger at a place ends.
fn trigger_end(image: &[u8], at: usize) -> Option<usize>
    requires { (at < length image.now) × (byte_at image.now at % 32 ≡ 0x17) }
    ensures { IfSome result (λ end. Component image.now at end (trigger_at image.now at ∷ [])) }
{
    let end = at + 4;
    if image.len() < end {
        return None;
    }
    Some(end)
}

// A field, no option, if there may be one more. A trigger has no bytes in the sheet to claim.
pub(crate) fn accept_field(
    image: &[u8],
    extent: usize,
    p: usize,
    w: Tally,
    marks: &mut [u64],
) -> Option<Tally>
    requires { (p < length image.now) × (extent ≤ 64 * length marks.old) }
    ensures { IfSome result (λ t. Passes image.now extent p w t marks.old marks.new) }
{
    if Image::MAX_FIELDS <= w.fields {
        return None;
    }
    if image[p] % 32 == 0x17 {
        return Some(w.fielded(trigger_end(image, p)?));
    }
    let (end, size) = measure_of(image, p)?;
    if !claim(marks, extent, word_in(image, p + 4), size) {
        return None;
    }
    Some(w.fielded(end))
}
