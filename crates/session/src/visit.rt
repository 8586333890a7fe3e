// A visit: what a key makes of the working copy, and what follows from it.
ghost use Rattle.std.specs.Prelude.{◌≡◌};
ghost use Rattle.field.specs.Sheet.{finished_in};
ghost use Rattle.session.specs.Answers.{in_visit};
ghost use Rattle.session.specs.Visits.{pressed, moved_on, followed, followed_sheet, visit_step};
ghost use Rattle.session.specs.Visits.{visit_sheet};
ghost use Rattle.keys.specs.declared.press.Outcome.TheVariants as outcome;

use crate::answer::{Answer, Stepped};
use crate::session::{Mode, Session};
use cmf::component::read_component;
use cmf::place::next_editable;
use field::kind::{ImagePlace, Kind};
use field::profile::{cell_of, profile_of};
use field::record::Field;
use field::work::Work;
use keys::press::{Outcome, Pressed, digit, down, enter, left, right, up};

// What a key makes of a working copy.
fn press(kind: Kind, work: Work, event: u8) -> Pressed
    ensures { result ≡ pressed kind work event }
{
    let p = profile_of(kind);
    let c = cell_of(kind, work, work.at as usize);
    match event {
        Session::UP => up(work, p, c),
        Session::DOWN => down(work, p, c),
        Session::LEFT => left(work, p, c),
        Session::RIGHT => right(work, p, c),
        Session::ENTER => enter(work, kind),
        0..=Session::LAST_DIGIT => digit(work, p, c, event),
        _ => Pressed {
            work,
            outcome: Outcome::Flash,
        },
    }
}

impl Session {
    fn in_visit(self, place: ImagePlace, work: Work) -> Self
        ensures { result ≡ in_visit self place work }
    {
        self.in_mode(Mode::Visit(place), work, self.typed)
    }

    // The next editable component of the line visited, or editing ended.
    fn moved_on(self, image: &[u8], sheet: &[u8], place: usize) -> Self
        ensures { result ≡ moved_on image.now sheet.now self place }
    {
        let f = next_editable(image, place);
        match f {
            Some(p) => self.visit_at(image, sheet, p),
            None => {
                let work = self.work;
                let typed = self.typed;
                self.in_mode(Mode::Browsing, work, typed)
            }
        }
    }

    // The last ENTER: the field's own bytes are stored.
    fn finish(
        self,
        image: &[u8],
        sheet: &mut [u8],
        place: ImagePlace,
        field: Field,
        work: Work,
    ) -> Stepped
        ensures value { result ≡ followed image.now
            sheet.old self place field work outcome.Done }
        ensures sheet_after { sheet.new ≡ finished_in field work sheet.old }
    {
        field.finish(sheet, work);
        let session = self.moved_on(image, sheet, place.0);
        Stepped {
            session,
            answer: Answer::Finished(place),
        }
    }

    // What follows from a key's outcome.
    fn follow(
        self,
        image: &[u8],
        sheet: &mut [u8],
        place: ImagePlace,
        field: Field,
        pressed: Pressed,
    ) -> Stepped
        ensures value { result ≡ followed image.now sheet.old self place field
            pressed.work pressed.outcome }
        ensures sheet_after { sheet.new
            ≡ followed_sheet sheet.old field pressed.work pressed.outcome }
    {
        let work = pressed.work;
        match pressed.outcome {
            Outcome::Taken => self.in_visit(place, work).taken(),
            Outcome::Flash => self.flash(),
            Outcome::NextPart => self.in_visit(place, work).taken(),
            Outcome::Done => self.finish(image, sheet, place, field, work),
            Outcome::Fired => Stepped {
                session: self,
                answer: Answer::Fired(place),
            },
            Outcome::Passed => self.moved_on(image, sheet, place.0).taken(),
        }
    }

    // A step in a visit of the component at a place.
    pub(crate) fn visit(
        self,
        image: &[u8],
        sheet: &mut [u8],
        place: ImagePlace,
        event: u8,
    ) -> Stepped
        ensures value { result ≡ visit_step image.now sheet.old self place event }
        ensures sheet_after { sheet.new
            ≡ visit_sheet image.now sheet.old self place event }
    {
        if event == Session::SECOND {
            return self.taken();
        }
        let c = read_component(image, place.0);
        let pressed = press(c.field.kind, self.work, event);
        self.reset_idle()
            .follow(image, sheet, place, c.field, pressed)
    }
}
