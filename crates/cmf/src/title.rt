// A table's title.
ghost use Rattle.std.specs.Prelude.{◌≡◌};
ghost use Rattle.cmf.specs.Readers.{title_at};

use crate::refusal::Refusal;
use crate::text::read_texts;
use field::kind::ImagePlace;

// Where the title ends, and where the table's first line is; refused if not all of it is in the image.
#[derive(Clone, Copy)]
pub struct Title {
    pub refusal: Option<Refusal>,
    pub end: usize,
    pub line: ImagePlace,
}

pub fn read_title(image: &[u8], at: usize) -> Title
    ensures { result ≡ title_at image.now at }
{
    let t = read_texts(image, 1, at);
    if t.fits {
        return Title {
            refusal: None,
            end: t.end,
            line: ImagePlace(t.end + (1 - t.end % 2)),
        };
    }
    Title {
        refusal: Some(Refusal::Cut),
        end: at,
        line: ImagePlace(at),
    }
}
