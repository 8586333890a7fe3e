// Cases of records: a list of events recorded, and a record played from Open on.
use crate::hex::Hex;
use crate::reading::{read_list, read_word};
use crate::{Case, ROOM, UNWRITTEN};
use playback::play::play;
use record::recording::record;
use std::io;

// How many entries the list of answers of a case can have.
const MOST: usize = 1024;

// What each entry has before. It is no answer, so that an entry that is not written shows.
const UNPLAYED: u32 = 7;

impl Case<'_, '_> {
    // The refusal, the record's length, and the room afterwards. The case has its events where others have an
    // image, and the room for a sheet.
    pub fn record(&mut self, rt: &impl Print) -> io::Result<()> {
        self.sheet.fill(UNWRITTEN);
        let (refusal, length) = match record(self.image, self.sheet) {
            Ok(length) => (0, length),
            Err(refusal) => (refusal.number(), 0),
        };
        print!(rt; "{refusal} {length} {}", Hex(self.sheet))
    }

    // The input goes on with the count of the list's entries and the record's length, two bytes each, and the
    // record; all of it is read, so that the next case begins where it should, whatever is refused. Printed
    // are the refusal, the number of events, every entry of the list, also those that must stay, the sheet
    // afterwards, and what Draw then answers.
    pub fn replay(&mut self, rt: &(impl Input + Print)) -> io::Result<()> {
        let count = read_word(rt)? as usize;
        let mut record_room = [0u8; ROOM];
        let recorded = read_list(rt, &mut record_room)?;
        if count > MOST {
            return Ok(());
        }
        let mut entries = [UNPLAYED; MOST];
        let answers = &mut entries[..count];
        let (columns, lines) = (self.columns(), self.lines());
        self.sheet.fill(UNWRITTEN);
        let replayed = play(self.image, self.sheet, columns, lines, recorded, answers);
        print!(rt; "{} {} ", replayed.refusal, replayed.events)?;
        for number in &*answers {
            print!(rt; "{number} ")?;
        }
        self.print_end(rt, replayed.session)
    }
}
