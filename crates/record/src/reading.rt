// Reading: a record is looked through before any of its events is played.
ghost use Rattle.std.specs.Prelude.{◌≡◌, IfOk};
ghost use Rattle.cmf.specs.Refusals.{refusal_in};
ghost use Rattle.record.specs.Forms.{events_refusal, checked};
ghost use Rattle.record.specs.Heads.{head_of};

use crate::number::read_number;
use crate::recording::FORM_1;
use cmf::refusal::Refusal;
use session::session::Session;

// The events of a record: how many they are, and the place of the first. They are the bytes from there on.
#[derive(Clone, Copy)]
pub struct Events {
    pub count: usize,
    pub start: usize,
}

// The number of events and the place after it, or why the record is refused before any event.
fn read_head(bytes: &[u8]) -> Result<(usize, usize), Refusal>
    ensures { result ≡ head_of bytes.now }
{
    let (form, at) = read_number(bytes, 0).ok_or(Refusal::Record)?;
    if form != FORM_1 {
        return Err(Refusal::OtherForm);
    }
    let (count, start) = read_number(bytes, at).ok_or(Refusal::Record)?;
    Ok((count as usize, start))
}

// So many numbers from a place on, which must end the bytes. Broken rules come before a bad event, wherever
// they are, so that all numbers are read.
fn scan(bytes: &[u8], at: usize, count: usize) -> Result<(), Refusal>
    ensures { refusal_in result ≡ events_refusal count bytes.now at }
{
    let mut next = at;
    let mut known = true;
    for _ in 0..count {
        let Some((x, behind)) = read_number(bytes, next) else {
            return Err(Refusal::Record);
        };
        known = known && x <= Session::SECOND as u16;
        next = behind;
    }
    if next != bytes.len() {
        return Err(Refusal::Record);
    }
    if known { Ok(()) } else { Err(Refusal::Event) }
}

// Looks a record through.
pub fn check_record(bytes: &[u8]) -> Result<Events, Refusal>
    ensures refusal_value { refusal_in result ≡ (checked bytes.now).refusal }
    ensures events_value { IfOk result (λ e. (e.count ≡ (checked bytes.now).events)
        × (e.start ≡ (checked bytes.now).start)) }
{
    let (count, start) = read_head(bytes)?;
    scan(bytes, start, count)?;
    Ok(Events { count, start })
}
