// The call Option text: an item's own bytes, shown as that part of the lent image, and where that part is.
ghost use Rattle.std.specs.Prelude.{◌≡◌, length};
ghost use Rattle.cmf.specs.Places.{is_in};
ghost use Rattle.acceptance.specs.Index.{places_in};
ghost use Rattle.cmf.specs.Refusals.{refusal_in};
ghost use Rattle.handset.specs.OptionText.{items_in, text_refusal, text_place, place_in};
ghost use Rattle.handset.specs.OptionText.{option_text, text_in};

use acceptance::index::entry_at;
use cmf::component::read_component;
use cmf::refusal::Refusal;
use cmf::text::item_place;
use field::kind::{ImagePlace, Kind};
use laws::byte_at;
use walk::check::check;

// Where an item's own bytes are in the image: the place of the first and how many.
#[derive(Clone, Copy)]
pub struct TextSpan {
    pub start: ImagePlace,
    pub length: usize,
}

// Whether one of the first k entries of an index is at a place.
fn is_reached(index: &[usize], k: usize, place: usize) -> bool
    ensures { result ≡ is_in place (places_in index.now k) }
{
    (0..k).any(|i| entry_at(index, i).place.0 == place)
}

fn items_in(kind: Kind) -> usize
    ensures { result ≡ items_in kind }
{
    match kind {
        Kind::Option { items, .. } => items as usize,
        _ => 0,
    }
}

// Image and sheet, and then the place of a reached option and the number of its item.
fn check_item(image: &[u8], extent: usize, place: usize, item: usize) -> Result<(), Refusal>
    ensures { refusal_in result ≡ text_refusal image.now extent place item }
{
    let c = check(image, extent);
    if let Some(refusal) = c.progress.refusal {
        return Err(refusal);
    }
    if is_reached(&c.index, c.progress.fields, place)
        && item < items_in(read_component(image, place).field.kind)
    {
        return Ok(());
    }
    Err(Refusal::Item)
}

// Where an item's text is.
pub fn text_place(
    image: &[u8],
    sheet: &[u8],
    place: ImagePlace,
    item: usize,
) -> Result<TextSpan, Refusal>
    ensures { place_in result ≡ text_place image.now (length sheet.now) place.0 item }
{
    check_item(image, sheet.len(), place.0, item)?;
    let text = item_place(image, place.0, item);
    Ok(TextSpan {
        start: ImagePlace(text + 1),
        length: byte_at(image, text) as usize,
    })
}

// An item's text: the part of the image that `text_place` finds.
pub fn option_text<'a>(
    image: &'a [u8],
    sheet: &[u8],
    place: ImagePlace,
    item: usize,
) -> Result<&'a [u8], Refusal>
    ensures refusal_value { refusal_in result
        ≡ text_refusal image.now (length sheet.now) place.0 item }
    ensures text_value { text_in result ≡ option_text image.now (length sheet.now) place.0 item }
{
    let found = text_place(image, sheet, place, item)?;
    let start = found.start.0;
    Ok(&image[start..start + found.length])
}
