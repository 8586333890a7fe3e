// The places that a question may be about, in a table with a number for each byte of a sheet: 1 more than the
// default of the one-byte field there, or 0 for none. A place is taken out with its first question, and is 0
// from then on.
ghost use Rattle.std.specs.Prelude.{◌≡◌, get_or};
ghost use Rattle.marker.specs.Table.{with_field, set_at, fields_read, with_fields};

use cmf::component::read_component;
use field::kind::SheetPlace;
use field::profile::profile_of;
use field::record::Field;

// Enters a field, if it has one byte.
fn enter(table: &mut [u16], f: Field)
    ensures { table.new ≡ with_field f table.old }
{
    let at = f.sheet.0;
    if profile_of(f.kind).bytes == 1 && at < table.len() {
        table[at] = f.default.byte(0) as u16 + 1;
    }
}

// Enters the fields at a list of image places. The last comes first, so that of two at one place the first
// would count.
pub(crate) fn enter_all(image: &[u8], places: &[usize], table: &mut [u16])
    ensures { table.new ≡ with_fields (fields_read image.now places.now) table.old }
{
    for place in places.iter().rev() {
        enter(table, read_component(image, *place).field);
    }
}

// The number at a place, which is 0 from then on.
pub(crate) fn take_out(table: &mut [u16], place: SheetPlace) -> u16
    ensures value { result ≡ get_or table.old place.0 0 }
    ensures table_after { table.new ≡ set_at place.0 0 table.old }
{
    let at = place.0;
    if at < table.len() {
        let number = table[at];
        table[at] = 0;
        return number;
    }
    0
}
