// The call Event: a session comes in, and the next one goes out with an answer.
ghost use Rattle.std.specs.Prelude.{◌≡◌};
ghost use Rattle.laws.specs.Choice.{◌≤?◌};
ghost use Rattle.session.specs.Events.{second};
ghost use Rattle.session.specs.Answers.{answer_number};
ghost use Rattle.cmf.specs.Refusals.{refusal_in};
ghost use Rattle.handset.specs.Refusals.{◌unless◌};
ghost use Rattle.handset.specs.Event.{event_refusal, event_step, event_answer, event_sheet};

use crate::refusal::check_sitting;
use cmf::refusal::Refusal;
use session::answer::{Answer, Stepped};
use session::session::Session;

#[tactic(auto, using(crate::proofs::Ordering::tested))]
fn check_event(event: u8) -> Result<(), Refusal>
    ensures { refusal_in result ≡ (13 unless (event ≤? second)) }
{
    if event <= Session::SECOND {
        return Ok(());
    }
    Err(Refusal::Event)
}

// Image, sheet and session, and then the event.
fn check_step(image: &[u8], extent: usize, session: Session, event: u8) -> Result<(), Refusal>
    ensures { refusal_in result ≡ event_refusal image.now extent session event }
{
    check_sitting(image, extent, session)?;
    check_event(event)
}

// The next session with the answer. The sheet changes only where a visit is finished, and only in that
// field's bytes.
pub fn event(image: &[u8], sheet: &mut [u8], session: Session, event: u8) -> Stepped
    ensures value { result ≡ event_step image.now sheet.old session event }
    ensures answer_value { answer_number result.answer
        ≡ event_answer image.now sheet.old session event }
    ensures sheet_after { sheet.new
        ≡ event_sheet image.now sheet.old session event }
{
    match check_step(image, sheet.len(), session, event) {
        Ok(()) => session.step(image, sheet, event),
        Err(refusal) => Stepped {
            session,
            answer: Answer::Refused(refusal.number()),
        },
    }
}
