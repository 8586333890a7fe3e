// Events one after another, with their answers. After a successful Open no event is refused, so that image
// and session are not checked again for each.
ghost use Rattle.std.specs.Prelude.{◌≡◌, true, [], ◌∷◌};
ghost use Rattle.laws.specs.Overwrite.{over};
ghost use Rattle.journal.specs.Sitting.{sitting, played, answered_in};
ghost use Rattle.record.specs.Forms.{are_events};
ghost use Rattle.playback.specs.Replay.{numbers_in};
ghost use Rattle.playback.specs.Unrefused.{Unrefused};

use session::session::Session;

// Writes an answer's number to its place in a list, if the list has that place.
fn note(answers: &mut [u32], i: usize, number: u32)
    ensures { answers.new ≡ over answers.old i (number ∷ []) }
{
    if i < answers.len() {
        answers[i] = number;
    }
}

// The session after events, none of which is refused. Their answers go to a lent list, by their numbers.
pub(crate) fn play_events(
    image: &[u8],
    sheet: &mut [u8],
    session: Session,
    events: &[u8],
    answers: &mut [u32],
) -> Session
    requires unrefused { Unrefused image.now (sitting session sheet.old) }
    requires events_value { are_events events.now ≡ true }
    ensures value { result ≡ (played image.now (sitting session sheet.old)
        events.now).session }
    ensures sheet_after { sheet.new ≡ (played image.now (sitting session sheet.old)
        events.now).sheet }
    ensures answers_after { answers.new ≡ over answers.old 0
        (numbers_in (answered_in image.now (sitting session sheet.old)
        events.now)) }
{
    let mut last = session;
    for (i, event) in events.iter().enumerate() {
        let stepped = last.step(image, sheet, *event);
        note(answers, i, stepped.answer.number());
        last = stepped.session;
    }
    last
}
