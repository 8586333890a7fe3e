// A component of a line, and the field that it is.
ghost use Rattle.std.specs.Prelude.{◌≡◌, ◌+◌, ◌%◌, ◌<◌, ◌≤◌, length, true, false, [], Some, None};
ghost use Rattle.cmf.specs.declared.refusal.Refusal.TheVariants as fault;
ghost use Rattle.laws.specs.Choice.{when◌then◌else◌, ◌=?◌};
ghost use Rattle.laws.specs.Bytes.{word_at, room};
ghost use Rattle.field.specs.Cells.{biased};
ghost use Rattle.field.specs.Settings.{settings_fit};
ghost use Rattle.field.specs.Values.{value_of, value_at};
ghost use Rattle.cmf.specs.Readers.{tag_bit, fixed_bytes, counter_of, kind_at};
ghost use Rattle.cmf.specs.Readers.{sheet_place_at, field_by, component_refused, component_read, laid_out};
ghost use Rattle.cmf.specs.Readers.{component_by, component_at};

use crate::image::{Image, word_in};
use crate::layout::{fixed_bytes, is_given, option_given, text_count};
use crate::refusal::Refusal;
use crate::text::{ITEMS, Run, read_texts};
use field::kind::{CounterSettings, Format, ImagePlace, Kind, SheetPlace};
use field::record::Field;
use field::settings::settings_fit;
use field::value::{Value, value_at};
use laws::{byte_at, room, word_at};

// refusal: it is cut, of no given form, or has a bad setting. fielded: it is a field, and no constant string.
// next: the place of the next component.
#[derive(Clone, Copy)]
pub struct Component {
    pub refusal: Option<Refusal>,
    pub last: bool,
    pub editable: bool,
    pub fielded: bool,
    pub field: Field,
    pub end: usize,
    pub next: ImagePlace,
}

fn bias(x: u16) -> u16
    ensures { result ≡ biased x }
{
    ((x as u32 + 32768) % 65536) as u16
}

fn counter_of(image: &[u8], at: usize) -> CounterSettings
    requires { at < length image.now }
    ensures { result ≡ counter_of image.now at }
{
    CounterSettings {
        min: bias(word_at(image, at + 6)),
        max: bias(word_at(image, at + 8)),
        step: word_at(image, at + 10),
        width: byte_at(image, at + 14),
    }
}

#[tactic(auto, using(laws::proofs::Cases::choices), unfolding(crate::specs::Readers::sheet_place_at))]
fn sheet_place(image: &[u8], at: usize, code: u8) -> u16
    requires { at < length image.now }
    ensures { result ≡ sheet_place_at image.now at code }
{
    if code < 0x15 {
        word_at(image, at + 4)
    } else {
        0
    }
}

// A trigger has no bytes; it stands for the field where there is none.
fn trigger(at: usize, sheet: usize) -> Field
    ensures { result ≡ record {
      image = record { 0 = at };
      sheet = record { 0 = sheet };
      kind = Kind.Trigger;
      default = value_of 0 [];
    } }
{
    Field {
        image: ImagePlace(at),
        sheet: SheetPlace(sheet),
        kind: Kind::Trigger,
        default: Value {
            bytes: [0, 0, 0, 0],
            count: 0,
        },
    }
}

// A field of this kind whose default is in so many bytes, so far after its tag.
fn field_of(image: &[u8], at: usize, kind: Kind, offset: usize, count: u8) -> Field
    requires { (at < length image.now) × (offset ≤ 12) }
    ensures { result ≡ record {
      image = record { 0 = at };
      sheet = record { 0 = word_at image.entry.now (at + 4) };
      kind = kind;
      default = value_at (at + offset) count image.entry.now;
    } }
{
    Field {
        image: ImagePlace(at),
        sheet: SheetPlace(word_at(image, at + 4) as usize),
        kind,
        default: value_at(image, at + offset, count),
    }
}

// The field that a code gives, but an option's; what is no field counts as a trigger.
fn field_by(image: &[u8], at: usize, code: u8) -> Field
    requires { (at < length image.now) × (code ≡ 0x14 → ⊥) }
    ensures { result ≡ field_by image.now at code }
{
    if code <= 0x04 {
        return field_of(image, at, Kind::Integer(Format::of_code(code)), 6, 1);
    }
    if code <= 0x0a {
        return field_of(image, at, Kind::Integer(Format::of_code(code)), 6, 2);
    }
    match code {
        0x0d => field_of(image, at, Kind::Counter(counter_of(image, at)), 12, 2),
        0x0f => field_of(image, at, Kind::Time(true), 6, 3),
        0x10 => field_of(image, at, Kind::Time(false), 6, 2),
        0x11 => field_of(image, at, Kind::Date(true), 6, 4),
        0x12 => field_of(image, at, Kind::Date(false), 6, 3),
        0x13 => field_of(image, at, Kind::Switch(byte_at(image, at + 7)), 10, 4),
        _ => trigger(at, sheet_place(image, at, code) as usize),
    }
}

impl Component {
    // Not all there, or not given: the last of its line, and it leads nowhere.
    fn refused(image: &[u8], at: usize, refusal: Refusal) -> Self
        ensures { result ≡ component_refused image.now at refusal }
    {
        Component {
            refusal: Some(refusal),
            last: true,
            editable: false,
            fielded: false,
            field: trigger(at, 0),
            end: at,
            next: ImagePlace(at),
        }
    }
}

// The refusal of a component by its settings.
#[tactic(auto, using(laws::proofs::Cases::choices))]
fn setting_refusal(good: bool) -> Option<Refusal>
    ensures { result ≡ when good then None else Some fault.Setting }
{
    if good { None } else { Some(Refusal::Setting) }
}

// A trigger is editable whatever its edit bit.
#[tactic(auto, using(laws::proofs::Cases::choices))]
fn is_editable(code: u8, tag: u8) -> bool
    ensures { result ≡ when code =? 0x17 then true else tag_bit 32 tag =? 1 }
{
    code == 0x17 || tag / 32 % 2 == 1
}

// Every component but a constant string is a field.
#[tactic(auto, using(laws::proofs::Cases::choices))]
fn is_field(code: u8) -> bool
    ensures { result ≡ when code =? 0x15 then false else true }
{
    code != 0x15
}

// The component, no option, that ends at `end`.
fn component_read(image: &[u8], at: usize, code: u8, tag: u8, end: usize) -> Component
    requires { (at < length image.now) × (code ≡ 0x14 → ⊥) × (end ≤ length image.now) }
    ensures { result ≡ component_read image.now at code tag end }
{
    let field = field_by(image, at, code);
    Component {
        refusal: setting_refusal(settings_fit(field.kind, field.default)),
        last: tag / 128 % 2 == 1,
        editable: is_editable(code, tag),
        fielded: is_field(code),
        field,
        end,
        next: ImagePlace(end + end % 2),
    }
}

// The component, no option, whose fixed bytes are all there, with these texts after them.
#[tactic(auto, using(laws::proofs::Cases::choices), unfolding(crate::specs::Readers::laid_out))]
fn laid_out(image: &[u8], at: usize, code: u8, tag: u8, t: Run) -> Component
    requires { (at < length image.now) × (code ≡ 0x14 → ⊥)
        × (room (length image.now) at (fixed_bytes code (tag_bit 32 tag)) ≡ true)
        × (t.fits ≡ true → t.end ≤ length image.now) }
    ensures { result ≡ laid_out image.now at code tag t }
{
    if !t.fits {
        return Component::refused(image, at, Refusal::Cut);
    }
    if !is_given(image, at, code, tag / 32 % 2, t) {
        return Component::refused(image, at, Refusal::Form);
    }
    component_read(image, at, code, tag, t.end)
}

// The component with this code, which is no option's.
#[tactic(auto, using(laws::proofs::Cases::choices), unfolding(crate::specs::Readers::component_by))]
fn component_by(image: &[u8], at: usize, code: u8, tag: u8) -> Component
    requires { (at < length image.now) × (code ≡ 0x14 → ⊥) }
    ensures { result ≡ component_by image.now at code tag }
{
    if Image::CODES <= code {
        return Component::refused(image, at, Refusal::Form);
    }
    let fixed = fixed_bytes(code, tag / 32 % 2);
    if !room(image, at, fixed) {
        return Component::refused(image, at, Refusal::Cut);
    }
    let t = read_texts(image, text_count(image, at, code), at + fixed);
    laid_out(image, at, code, tag, t)
}

// A constant string: it is no field, and no setting of it can be bad.
fn string_by(image: &[u8], at: usize, tag: u8) -> Component
    requires { (at < length image.now) × (tag % 64 ≡ 0x15) }
    ensures { result ≡ component_by image.now at 0x15 tag }
{
    let t = read_texts(image, 1, at + 1);
    if !t.fits {
        return Component::refused(image, at, Refusal::Cut);
    }
    Component {
        refusal: None,
        last: tag / 128 % 2 == 1,
        editable: false,
        fielded: false,
        field: trigger(at, 0),
        end: t.end,
        next: ImagePlace(t.end + t.end % 2),
    }
}

// The field of an option, whose fixed bytes are all there.
fn option_field(image: &[u8], at: usize) -> Field
    requires { at + 10 ≤ length image.now }
    ensures { result ≡ field_by image.now at 0x14 }
{
    Field {
        image: ImagePlace(at),
        sheet: SheetPlace(word_in(image, at + 4)),
        kind: Kind::Option {
            items: image[at + 7],
            longest: image[at + 8],
        },
        default: value_at(image, at + 9, 1),
    }
}

// Whether an option's default is one of its items.
fn option_fits(image: &[u8], at: usize) -> bool
    requires { at + 10 ≤ length image.now }
    ensures { result ≡ settings_fit (kind_at image.now at 0x14)
        (field_by image.now at 0x14).default }
{
    image[at + 9] < image[at + 7]
}

// The option that ends at `end`.
fn option_read(image: &[u8], at: usize, tag: u8, end: usize) -> Component
    requires { (at + 10 ≤ length image.now) × (end ≤ length image.now) }
    ensures { result ≡ component_read image.now at 0x14 tag end }
{
    Component {
        refusal: setting_refusal(option_fits(image, at)),
        last: tag / 128 % 2 == 1,
        editable: tag / 32 % 2 == 1,
        fielded: true,
        field: option_field(image, at),
        end,
        next: ImagePlace(end + end % 2),
    }
}

fn option_by(image: &[u8], at: usize, tag: u8) -> Component
    requires { at < length image.now }
    ensures { result ≡ component_by image.now at 0x14 tag }
{
    if !room(image, at, ITEMS) {
        return Component::refused(image, at, Refusal::Cut);
    }
    let t = read_texts(image, image[at + 7] as usize, at + ITEMS);
    if !t.fits {
        return Component::refused(image, at, Refusal::Cut);
    }
    if !option_given(image, at, t) {
        return Component::refused(image, at, Refusal::Form);
    }
    option_read(image, at, tag, t.end)
}

#[tactic(auto, using(laws::proofs::Cases::choices), unfolding(crate::specs::Readers::component_at))]
pub fn read_component(image: &[u8], at: usize) -> Component
    ensures { result ≡ component_at image.now at }
{
    if at < image.len() {
        let tag = image[at];
        if tag % 64 == 0x15 {
            return string_by(image, at, tag);
        }
        if tag % 32 == 0x14 {
            return option_by(image, at, tag);
        }
        return component_by(image, at, tag % 32, tag);
    }
    Component::refused(image, at, Refusal::Cut)
}
