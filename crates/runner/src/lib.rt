// Runs the cases that standard input holds, and prints a line for each: its name and what the calls answer. A
// program over it has its cases in its `stdin`, and in its `stdout` the lines that the gate compares.
#![tactic(auto)]

mod hex;
mod marking;
mod playing;
mod reading;
mod recording;

use cmf::refusal::refusal_number;
use field::kind::ImagePlace;
use handset::draw::draw;
use handset::open::{Opened, open};
use handset::option::option_text;
use hex::Hex;
use picture::cursor::EditCursor;
use reading::{read_full, read_given, read_word};
use session::session::Session;
use std::io;
use walk::check::check;

// What a case asks for.
#[derive(Clone, Copy)]
enum Operation {
    // To check an image.
    Check,
    // An option's text.
    Text,
    // To open an image on a sheet of bytes 0xEE.
    Open,
    // To draw a session on a picture of bytes 0xEE.
    Draw,
    // To play a list of events from Open on.
    Play,
    // To step a session by one event.
    Step,
    // To mark a sheet.
    Mark,
    // To record a list of events in room of bytes 0xEE.
    Record,
    // To play a record from Open on.
    Replay,
}

// A number that stands for no operation.
#[derive(Clone, Copy)]
struct NoOperation;

impl TryFrom<u8> for Operation {
    type Error = NoOperation;

    fn try_from(number: u8) -> Result<Self, NoOperation> {
        match number {
            1 => Ok(Operation::Check),
            2 => Ok(Operation::Text),
            3 => Ok(Operation::Open),
            4 => Ok(Operation::Draw),
            5 => Ok(Operation::Play),
            6 => Ok(Operation::Step),
            7 => Ok(Operation::Mark),
            8 => Ok(Operation::Record),
            9 => Ok(Operation::Replay),
            _ => Err(NoOperation),
        }
    }
}

// Room for what a case tells the length of in two bytes: an image, a sheet or a record.
pub const ROOM: usize = 65536;

// The longest picture that a case can have.
const PICTURE: usize = 256;

// The most cases that an input can have.
const MOST: u32 = 65536;

// What a sheet, a picture or a room has before a call that writes to it.
const UNWRITTEN: u8 = 0xee;

// What every operation is given: an image, a sheet, and a place and an item. Open, a list of events and a
// record have columns and lines in place of these two, and recording has events and room in place of image
// and sheet.
#[derive(Drop)]
struct Case<'i, 's> {
    image: &'i [u8],
    sheet: &'s mut [u8],
    place: u16,
    item: u16,
}

impl Case<'_, '_> {
    fn columns(&self) -> u8 {
        (self.place % 256) as u8
    }

    fn lines(&self) -> u8 {
        (self.item % 256) as u8
    }

    fn run(&mut self, rt: &(impl Input + Print), op: Operation) -> io::Result<()> {
        match op {
            Operation::Check => self.check(rt),
            Operation::Text => self.text(rt),
            Operation::Open => self.open(rt),
            Operation::Draw => self.draw(rt),
            Operation::Play => self.play(rt),
            Operation::Step => self.step(rt),
            Operation::Mark => self.mark(rt),
            Operation::Record => self.record(rt),
            Operation::Replay => self.replay(rt),
        }
    }

    fn check(&self, rt: &impl Print) -> io::Result<()> {
        let c = check(self.image, self.sheet.len());
        print!(rt; "{}", refusal_number(c.progress.refusal))
    }

    fn text(&self, rt: &impl Print) -> io::Result<()> {
        let place = ImagePlace(self.place as usize);
        match option_text(self.image, self.sheet, place, self.item as usize) {
            Ok(text) => print!(rt; "0 {}", Hex(text)),
            Err(refusal) => print!(rt; "{} ", refusal.number()),
        }
    }

    // Opens the image on a sheet of bytes 0xEE.
    fn opened(&mut self) -> Opened {
        let (columns, lines) = (self.columns(), self.lines());
        self.sheet.fill(UNWRITTEN);
        open(self.image, self.sheet, columns, lines)
    }

    // The refusal, what the session's display has, and the sheet afterwards.
    fn open(&mut self, rt: &impl Print) -> io::Result<()> {
        let opened = self.opened();
        let Session { columns, lines, .. } = opened.session;
        print!(rt; "{} {columns}x{lines} {}", opened.refusal, Hex(self.sheet))
    }

    // What Draw answers on a session with a picture of so many bytes: the refusal, the edit cursor, and the
    // picture afterwards.
    fn print_picture(&self, rt: &impl Print, session: Session, length: usize) -> io::Result<()> {
        let mut picture = [UNWRITTEN; PICTURE];
        if length > PICTURE {
            return Ok(());
        }
        match draw(self.image, self.sheet, session, &mut picture[..length]) {
            Ok(None) => print!(rt; "0 -")?,
            Ok(Some(EditCursor { row, column })) => print!(rt; "0 {row},{column}")?,
            Err(refusal) => print!(rt; "{} -", refusal.number())?,
        }
        print!(rt; " {}", Hex(&picture[..length]))
    }

    // The input of Draw goes on: the sheet's bytes, the picture's length in two bytes, the session.
    fn draw(&mut self, rt: &(impl Input + Print)) -> io::Result<()> {
        read_full(rt, self.sheet)?;
        let length = read_word(rt)? as usize;
        let session = read_given(rt)?;
        self.print_picture(rt, session, length)
    }
}

// One case: its operation, the length of its name and the name; lengths of image and sheet, place and item,
// two bytes each; the image. False at the end of the input. The cases share the room for image and sheet: an
// input that ends too soon leaves in it what was there. What has no room is not read, and such a case not run.
fn run_case(rt: &(impl Input + Print), image: &mut [u8], sheet: &mut [u8]) -> io::Result<bool> {
    let mut head = [0u8; 2];
    if !read_full(rt, &mut head)? {
        return Ok(false);
    }
    let [number, name_length] = head;
    if let Some(name) = image.get_mut(..name_length as usize) {
        read_full(rt, name)?;
        rt.write_all(name)?;
    }
    print!(rt; ": ")?;
    let length = read_word(rt)? as usize;
    let room = read_word(rt)? as usize;
    let place = read_word(rt)?;
    let item = read_word(rt)?;
    if let Some(image) = image.get_mut(..length) {
        read_full(rt, image)?;
        if let Some(sheet) = sheet.get_mut(..room) {
            if let Ok(op) = Operation::try_from(number) {
                let mut case = Case {
                    image,
                    sheet,
                    place,
                    item,
                };
                case.run(rt, op)?;
            }
        }
    }
    println!(rt)?;
    Ok(true)
}

// Runs the cases one by one; image and sheet are room for those of a case.
pub fn run_cases(rt: &(impl Input + Print), image: &mut [u8], sheet: &mut [u8]) -> io::Result<()> {
    for _ in 0..MOST {
        if !run_case(rt, image, sheet)? {
            break;
        }
    }
    Ok(())
}
