// The fields of an image, in one walk over its tables, lines and components: each one's default is written to
// a lent sheet, and its place is set in a lent list, as far as they have room. Open lends no list, and
// `list_fields` no sheet.
ghost use Rattle.std.specs.Prelude.{◌≡◌, length, IfOk};
ghost use Rattle.cmf.specs.Refusals.{refusal_in};
ghost use Rattle.laws.specs.Overwrite.{fit};
ghost use Rattle.cmf.specs.Limits.{most_fields};
ghost use Rattle.cmf.specs.Places.{rest_of_line, table_reach, fields_among, fields_of};
ghost use Rattle.acceptance.specs.Check.{refusal_of};
ghost use Rattle.handset.specs.Fields.{places_listed};
ghost use Rattle.handset.specs.Taking.{gathered, take_one, take_all};
ghost use Rattle.handset.specs.Open.{defaults_written};

use crate::refusal::check_image;
use cmf::component::read_component;
use cmf::head::read_head;
use cmf::image::Image;
use cmf::refusal::Refusal;
use cmf::title::read_title;
use field::record::Field;

// The image places of an image's fields in the order of the walk, as many as `count`, with zeros after them.
#[derive(Drop)]
pub struct FieldList {
    pub count: usize,
    pub places: [usize; Image::MAX_FIELDS],
}

// What the walk hands on: a lent sheet, and a lent list with the first `count` of its places set. Each method
// ensures that both are still those that were lent.
#[derive(Drop)]
struct Gathering<'a> {
    sheet: &'a mut [u8],
    places: &'a mut [usize],
    count: usize,
}

impl<'a> Gathering<'a> {
    // Takes a field: its default is written, and its place is the list's next, as long as there is room.
    fn take(&mut self, f: Field)
        ensures same_sheet { self.new.sheet.ghost_name ≡ self.old.sheet.ghost_name }
        ensures same_places { self.new.places.ghost_name ≡ self.old.places.ghost_name }
        ensures taken { gathered self.new.sheet.now self.new.count self.new.places.now
            ≡ take_one f (gathered self.old.sheet.now self.old.count self.old.places.now) }
    {
        f.write_default(self.sheet);
        if self.count < self.places.len() {
            self.places[self.count] = f.image.0;
            self.count += 1;
        }
    }

    // Takes those of a line's components that are fields; the first component is at a place.
    fn take_line(&mut self, image: &[u8], component: usize)
        ensures same_sheet { self.new.sheet.ghost_name ≡ self.old.sheet.ghost_name }
        ensures same_places { self.new.places.ghost_name ≡ self.old.places.ghost_name }
        ensures taken { gathered self.new.sheet.now self.new.count self.new.places.now
            ≡ take_all (fields_among image.now (rest_of_line image.now component))
            (gathered self.old.sheet.now self.old.count self.old.places.now) }
    {
        let mut at = component;
        for _ in 0..=image.len() {
            let c = read_component(image, at);
            if c.fielded {
                self.take(c.field);
            }
            if c.last {
                return;
            }
            at = c.next.0;
        }
    }

    // Takes those of the table at a place; `left` levels are left, its own among them.
    fn take_table(&mut self, image: &[u8], left: usize, table: usize)
        ensures same_sheet { self.new.sheet.ghost_name ≡ self.old.sheet.ghost_name }
        ensures same_places { self.new.places.ghost_name ≡ self.old.places.ghost_name }
        ensures taken { gathered self.new.sheet.now self.new.count self.new.places.now
            ≡ take_all (fields_among image.now (table_reach image.now left table))
            (gathered self.old.sheet.now self.old.count self.old.places.now) }
    {
        if left == 0 {
            return;
        }
        let mut line = read_title(image, table).line.0;
        for _ in 0..=Image::MAX_TABLE_LINES {
            let h = read_head(image, line);
            self.take_line(image, h.component.0);
            if h.submenu {
                self.take_table(image, left - 1, h.table.0);
            }
            if h.last {
                return;
            }
            line = h.next.0;
        }
    }
}

// Writes the default of each field of an image.
pub(crate) fn write_defaults(image: &[u8], sheet: &mut [u8])
    ensures { sheet.new ≡ defaults_written (fields_of image.now)
        sheet.old }
{
    let mut all = Gathering {
        sheet,
        places: &mut [],
        count: 0,
    };
    all.take_table(image, Image::MAX_DEPTH, Image::PROLOG);
}

// The fields of an image, for a sheet of so many bytes.
pub fn list_fields(image: &[u8], extent: usize) -> Result<FieldList, Refusal>
    ensures refusal_value { refusal_in result ≡ refusal_of image.now extent }
    ensures fields_value { IfOk result (λ l. (l.count ≡ length (places_listed image.now extent))
        × (l.places ≡ fit 0 most_fields (places_listed image.now extent))) }
{
    check_image(image, extent)?;
    let mut places = [0usize; Image::MAX_FIELDS];
    let mut all = Gathering {
        sheet: &mut [],
        places: &mut places,
        count: 0,
    };
    all.take_table(image, Image::MAX_DEPTH, Image::PROLOG);
    let count = all.count;
    Ok(FieldList { count, places })
}
