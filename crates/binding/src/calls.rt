// The calls that C sees: handset_open, handset_event, handset_draw and handset_option_text.
ghost use Rattle.std.specs.Prelude.{◌≡◌, min, length};
ghost use Rattle.session_bytes.specs.Layout.{session_from};
ghost use Rattle.binding.specs.Calls.{open_number, opened_sheet, opened_bytes, opened_session};
ghost use Rattle.binding.specs.Calls.{event_number, event_bytes, draw_number, text_number};
ghost use Rattle.handset.specs.Refusals.{◌before◌};
ghost use Rattle.handset.specs.Open.{open_refusal};
ghost use Rattle.handset.specs.Event.{event_step, event_sheet};
ghost use Rattle.handset.specs.Draw.{drawn_picture};

use crate::answer::{REFUSED, cursor_number, number_in, refused_by};
use cmf::refusal::Refusal;
use field::kind::ImagePlace;
use handset::draw::draw;
use handset::open::open;
use handset::option::text_place;
use handset::refusal::check_sitting;
use session::fits::shape_fits;
use session::session::Session;
use session_bytes::layout::SIZE;
use session_bytes::read::read_session;
use session_bytes::write::write_session;

const REFUSED_TEXT: u64 = 4294967296;

// A place counts so many times, so that the length of an item fits below it.
const PLACE: u64 = 65536;

// A number of C as the byte that `handset` takes: what is above 255 goes as 255, which is refused alike.
pub(crate) fn byte_of(n: u32) -> u8
    ensures { result ≡ min n 255 }
{
    u8::try_from(n).unwrap_or(255)
}

// The refusal of an Open whose session would not fit its buffer: 1, 2 to 11, then 12.
pub(crate) fn unsized_refusal(image: &[u8], extent: usize, columns: u8, lines: u8) -> u8
    ensures { result ≡ open_refusal image.now extent columns lines before 12 }
{
    if !shape_fits(columns, lines) {
        return Refusal::Shape.number();
    }
    number_in(check_sitting(image, extent, Session::closed()))
}

#[unsafe(no_mangle)]
pub extern "C" fn handset_open(
    image: &[u8],
    sheet: &mut [u8],
    columns: u32,
    lines: u32,
    session: &mut [u8],
) -> u32
    ensures value { result ≡ open_number image.now (length sheet.old) columns lines
        (length session.old) }
    ensures sheet_after { sheet.new ≡ opened_sheet image.now sheet.old columns lines
        (length session.old) }
    ensures session_after { session.new
        ≡ opened_bytes image.now (length sheet.old) columns lines
        session.old }
    ensures session_after_2 { session_from session.new
        ≡ opened_session image.now (length sheet.old) columns lines
        (length session.old) }
{
    let across = byte_of(columns);
    let down = byte_of(lines);
    if session.len() != SIZE {
        return REFUSED + unsized_refusal(image, sheet.len(), across, down) as u32;
    }
    let opened = open(image, sheet, across, down);
    write_session(session, opened.session);
    refused_by(opened.refusal)
}

#[unsafe(no_mangle)]
pub extern "C" fn handset_event(
    image: &[u8],
    sheet: &mut [u8],
    session: &mut [u8],
    event: u32,
) -> u32
    ensures value { result
        ≡ event_number image.now sheet.old session.old event }
    ensures sheet_after { sheet.new ≡ event_sheet image.now sheet.old
        (session_from session.old) event }
    ensures session_after { session.new
        ≡ event_bytes image.now sheet.old session.old event }
    ensures session_after_2 { session_from session.new
        ≡ (event_step image.now sheet.old
        (session_from session.old) event).session }
{
    let stepped = handset::event::event(image, sheet, read_session(session), byte_of(event));
    let answer = stepped.answer;
    let number = answer.number();
    if REFUSED <= number {
        return number;
    }
    let next = stepped.session;
    write_session(session, next);
    number
}

#[unsafe(no_mangle)]
pub extern "C" fn handset_draw(
    image: &[u8],
    sheet: &[u8],
    session: &[u8],
    picture: &mut [u8],
) -> u32
    ensures value { result ≡ draw_number image.now (length sheet.now) session.now
        (length picture.old) }
    ensures picture_after { picture.new
        ≡ drawn_picture image.now sheet.now (session_from session.now)
        picture.old }
{
    let shown = read_session(session);
    match draw(image, sheet, shown, picture) {
        Ok(cursor) => cursor_number(cursor),
        Err(refusal) => refused_by(refusal.number()),
    }
}

#[unsafe(no_mangle)]
pub extern "C" fn handset_option_text(image: &[u8], sheet: &[u8], place: usize, item: usize) -> u64
    ensures { result ≡ text_number image.now (length sheet.now) place item }
{
    match text_place(image, sheet, ImagePlace(place), item) {
        Ok(text) => PLACE * text.start.0 as u64 + text.length as u64,
        Err(refusal) => REFUSED_TEXT + refusal.number() as u64,
    }
}
