// A field's record, and its bytes in the sheet: the default written, a visit begun, a visit finished.
ghost use Rattle.std.specs.Prelude.{◌≡◌};
ghost use Rattle.field.specs.Sheet.{default_written, begun, finished_in};

use crate::kind::{ImagePlace, Kind, SheetPlace};
use crate::profile::profile_of;
use crate::value::{Value, load, put};
use crate::work::Work;

// Where the component's tag is in the image, where the bytes lie in the sheet (a trigger has none), what the
// field is, and its default, of as many bytes as the kind has.
#[derive(Clone, Copy)]
pub struct Field {
    pub image: ImagePlace,
    pub sheet: SheetPlace,
    pub kind: Kind,
    pub default: Value,
}

impl Field {
    // Writes the default.
    pub fn write_default(self, sheet: &mut [u8])
        ensures { sheet.new ≡ default_written self sheet.old }
    {
        put(sheet, self.sheet, self.default);
    }

    // The working copy that a visit starts with.
    pub fn begin(self, sheet: &[u8]) -> Work
        ensures { result ≡ begun self sheet.now }
    {
        let value = load(sheet, self.sheet, profile_of(self.kind).bytes);
        Work::start(self.kind, value, self.default)
    }

    // Stores what the cells show, where the last ENTER said that it can be stored.
    pub fn finish(self, sheet: &mut [u8], work: Work)
        ensures { sheet.new ≡ finished_in self work sheet.old }
    {
        put(sheet, self.sheet, work.finish(self.kind));
    }
}
