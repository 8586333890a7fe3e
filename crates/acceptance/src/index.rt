// The fields that the walk has reached so far, in a lent array of three numbers to a field.
ghost use Rattle.std.specs.Prelude.{◌≡◌, ◌+◌};
ghost use Rattle.laws.specs.Choice.{◌≤?◌};
ghost use Rattle.acceptance.specs.Check.{entry_of, in_sheet, apart, apart_from};
ghost use Rattle.acceptance.specs.Index.{entry_at, listed, with_entry};

use cmf::image::Image;
use field::kind::{ImagePlace, SheetPlace};
use field::profile::profile_of;
use field::record::Field;
use laws::has_triple;

// A reached field: the place of its component's tag in the image, and its bytes in the sheet.
#[derive(Clone, Copy)]
pub struct Entry {
    pub place: ImagePlace,
    pub from: SheetPlace,
    pub size: usize,
}

impl Entry {
    pub fn of_field(f: Field) -> Self
        ensures { result ≡ entry_of f }
    {
        Entry {
            place: f.image,
            from: f.sheet,
            size: profile_of(f.kind).bytes as usize,
        }
    }

    // Whether its bytes lie in a sheet that is not too long.
    #[tactic(auto, using(laws::proofs::Cases::choices), unfolding(crate::specs::Check::in_sheet, laws::specs::Bytes::room))]
    pub fn in_sheet(self, extent: usize) -> bool
        ensures { result ≡ in_sheet extent self }
    {
        extent <= Image::MAX_SHEET && self.from.0 <= extent && self.size <= extent - self.from.0
    }

    // Whether its bytes end at a place or before.
    #[tactic(auto, using(laws::proofs::Cases::choices))]
    fn ends_by(self, at: usize) -> bool
        ensures { result ≡ (self.from.0 + self.size) ≤? at }
    {
        self.size <= at && self.from.0 <= at - self.size
    }

    // Whether it shares no byte with another.
    #[tactic(auto, using(laws::proofs::Cases::choices), unfolding(crate::specs::Check::apart))]
    fn apart(self, other: Entry) -> bool
        ensures { result ≡ apart self other }
    {
        self.size == 0
            || other.size == 0
            || self.ends_by(other.from.0)
            || other.ends_by(self.from.0)
    }
}

// The k-th entry of an index; zeros past its capacity.
pub fn entry_at(index: &[usize], k: usize) -> Entry
    ensures { result ≡ entry_at index.now k }
{
    if has_triple(index.len(), k) {
        let at = 3 * k;
        return Entry {
            place: ImagePlace(index[at]),
            from: SheetPlace(index[at + 1]),
            size: index[at + 2],
        };
    }
    Entry {
        place: ImagePlace(0),
        from: SheetPlace(0),
        size: 0,
    }
}

// Sets the k-th entry; past the capacity nothing changes.
pub fn set_entry(index: &mut [usize], k: usize, e: Entry)
    ensures { index.new ≡ with_entry index.old k e }
{
    if has_triple(index.len(), k) {
        let at = 3 * k;
        index[at] = e.place.0;
        index[at + 1] = e.from.0;
        index[at + 2] = e.size;
    }
}

// Whether an entry shares no byte with any of the first k of the index.
pub fn apart_from(e: Entry, index: &[usize], k: usize) -> bool
    ensures { result ≡ apart_from e (listed index.now k) }
{
    for i in 0..k {
        if !e.apart(entry_at(index, i)) {
            return false;
        }
    }
    true
}
