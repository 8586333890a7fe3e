// A sitting: Open, and then one event after another, each with what the call before left.
ghost use Rattle.std.specs.Prelude.{◌≡◌, length};
ghost use Rattle.handset.specs.Open.{open_refusal};
ghost use Rattle.journal.specs.Journal.{journal_of};
ghost use Rattle.journal.specs.Rules.{rules_of, HoldsJournal};
ghost use Rattle.journal.specs.Sitting.{sitting, begun_with, played, answered_in};

use handset::event::event;
use handset::open::open;
use session::session::Session;

// The session after a list of events.
pub fn play(image: &[u8], sheet: &mut [u8], session: Session, events: &[u8]) -> Session
    ensures value { result ≡ (played image.now (sitting session sheet.old)
        events.now).session }
    ensures sheet_after { sheet.new ≡ (played image.now (sitting session sheet.old)
        events.now).sheet }
{
    let mut last = session;
    for e in events {
        last = event(image, sheet, last, *e).session;
    }
    last
}

// The session at the end. Where Open is refused it is closed, every event is refused, and the sheet is as it
// was.
pub fn sit(image: &[u8], sheet: &mut [u8], columns: u8, lines: u8, events: &[u8]) -> Session
    ensures value { result ≡ (played image.now
        (begun_with image.now sheet.old columns lines) events.now).session }
    ensures sheet_after { sheet.new ≡ (played image.now
        (begun_with image.now sheet.old columns lines) events.now).sheet }
    ensures holds_journal { open_refusal image.now (length sheet.old) columns lines ≡ 0
        → HoldsJournal image.now sheet.new
        (journal_of (rules_of image.now)
        (answered_in image.now (begun_with image.now sheet.old columns lines)
        events.now)) }
{
    let session = open(image, sheet, columns, lines).session;
    play(image, sheet, session, events)
}
