// Whether the settings that an image gives a field are good: what refusal 9 asks.
ghost use Rattle.std.specs.Prelude.{◌≡◌, ◌≤◌};
ghost use Rattle.field.specs.Settings.{digit_count, counted_cells, step_fits, width_fits, kind_fits};
ghost use Rattle.field.specs.Settings.{settings_fit};

use crate::kind::{CounterSettings, Kind};
use crate::value::Value;
use crate::work::in_range;

// How many decimal digits a number of at most five has.
pub fn digit_count(x: u64) -> u8
    ensures { (result ≡ digit_count x) × (result ≤ 5) }
{
    if x < 10 {
        1
    } else if x < 100 {
        2
    } else if x < 1000 {
        3
    } else if x < 10000 {
        4
    } else {
        5
    }
}

// The display cells that a counter's number takes; the number is given with 32,768 added.
pub fn counted_cells(x: u16) -> u8
    ensures { result ≡ counted_cells x }
{
    if x < 32768 {
        1 + digit_count((32768 - x) as u64)
    } else {
        digit_count((x - 32768) as u64)
    }
}

fn step_fits(s: CounterSettings) -> bool
    ensures { result ≡ step_fits s }
{
    1 <= s.step && s.step < 32768
}

fn width_fits(s: CounterSettings) -> bool
    ensures { result ≡ width_fits s }
{
    counted_cells(s.min) <= s.width && counted_cells(s.max) <= s.width
}

fn kind_fits(kind: Kind) -> bool
    ensures { result ≡ kind_fits kind }
{
    match kind {
        Kind::Counter(s) => step_fits(s) && width_fits(s),
        Kind::Switch(n) => 1 <= n && n <= Kind::MAX_BITS,
        Kind::Option { items, .. } => 1 <= items,
        _ => true,
    }
}

// Good settings with a default in range.
pub fn settings_fit(kind: Kind, default: Value) -> bool
    ensures { result ≡ settings_fit kind default }
{
    kind_fits(kind) && in_range(kind, default.number())
}
