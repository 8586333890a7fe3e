// A line's head: its tag and its options.
ghost use Rattle.std.specs.Prelude.{◌≡◌, ◌+◌, ◌<◌, ◌≤◌, true, length};
ghost use Rattle.laws.specs.Choice.{when◌then◌else◌};
ghost use Rattle.cmf.specs.Readers.{texts_from, password_fits, head_refused, passwords};
ghost use Rattle.cmf.specs.Readers.{first_at, back_place, back_at, submenu_place, options_end};
ghost use Rattle.cmf.specs.Readers.{head_read, head_by, head_at};

use crate::image::{Image, word_in};
use crate::refusal::Refusal;
use crate::text::{password_fits, read_texts};
use field::kind::ImagePlace;
use laws::{byte_at, room, word_at};

// refusal: the head is cut, or of no given form. typeable: its password, if it has one, is of 1 to 8 digits. last: of its table.
// next, table, password, component: the places of the next line, of the submenu's table, of the password, of
// the first component; without meaning if it has none.
#[derive(Clone, Copy)]
pub struct Head {
    pub refusal: Option<Refusal>,
    pub typeable: bool,
    pub last: bool,
    pub submenu: bool,
    pub protected: bool,
    pub next: ImagePlace,
    pub table: ImagePlace,
    pub password: ImagePlace,
    pub end: usize,
    pub component: ImagePlace,
}

impl Head {
    // The bytes that a tag and its options take at most, without a password.
    pub(crate) const MOST: usize = 9;

    // Not all there, or no head: the last of its table, and it leads nowhere.
    fn refused(p: usize, refusal: Refusal) -> Self
        ensures { result ≡ head_refused p refusal }
    {
        Head {
            refusal: Some(refusal),
            typeable: true,
            last: true,
            submenu: false,
            protected: false,
            next: ImagePlace(p),
            table: ImagePlace(p),
            password: ImagePlace(p),
            end: p,
            component: ImagePlace(p),
        }
    }
}

// Where a line's pointer back is, counted from its tag: after next-line-ofs, which the last line has not.
pub fn back_offset(tag: u8) -> usize
    ensures { result ≡ back_place 0 tag }
{
    1 + 2 * (1 - tag as usize / 2 % 2)
}

// Where its submenu's offset is: after the pointer back, which the first line has not, and the enable
// address.
pub fn submenu_offset(tag: u8) -> usize
    ensures { result ≡ submenu_place 0 tag }
{
    let t = tag as usize;
    back_offset(tag) + 2 - 2 * (t % 2) + 2 * (t / 4 % 2)
}

// How many bytes tag and options take; a password follows them.
pub fn options_length(tag: u8) -> usize
    ensures { result ≡ options_end 0 tag }
{
    submenu_offset(tag) + 2 * (tag as usize / 8 % 2)
}

// Whether the line at a place has the mark of the first of its table.
pub fn is_first(image: &[u8], p: usize) -> bool
    ensures { result ≡ first_at image.now p }
{
    byte_at(image, p) % 2 == 1
}

// The pointer back of the line at a place; without meaning for the first of a table.
pub fn back_at(image: &[u8], p: usize) -> usize
    ensures { result ≡ back_at image.now p }
{
    if p < image.len() {
        return word_at(image, p + back_offset(image[p])) as usize;
    }
    0
}

#[tactic(auto, using(laws::proofs::Cases::choices))]
fn is_typeable(image: &[u8], protected: bool, at: usize) -> bool
    ensures { result ≡ when protected then password_fits image.now at else true }
{
    !protected || password_fits(image, at)
}

// The head whose options are all in the image, and which ends at `end`.
fn head_read(image: &[u8], p: usize, tag: u8, end: usize) -> Head
    requires { (p < length image.now) × (end ≤ length image.now) }
    ensures { result ≡ head_read image.now p tag end }
{
    let t = tag as usize;
    let password = p + options_length(tag);
    let protected = (t / 8 % 2) * (t / 16 % 2) == 1;
    let a = word_at(image, p + 1) as usize;
    let d = word_at(image, p + submenu_offset(tag)) as usize;
    Head {
        refusal: None,
        typeable: is_typeable(image, protected, password),
        last: t / 2 % 2 == 1,
        submenu: t / 8 % 2 == 1,
        protected,
        next: ImagePlace(p + a),
        table: ImagePlace(Image::PROLOG + d),
        password: ImagePlace(password),
        end,
        component: ImagePlace(end + end % 2),
    }
}

// The head with this tag.
fn head_by(image: &[u8], p: usize, tag: u8) -> Head
    requires { p < length image.now }
    ensures { result ≡ head_by image.now p tag
        (texts_from image.now (passwords tag) (options_end p tag) 0) }
{
    let t = tag as usize;
    let options = p + options_length(tag);
    let run = read_texts(image, (t / 8 % 2) * (t / 16 % 2), options);
    if image.len() < options || !run.fits {
        return Head::refused(p, Refusal::Cut);
    }
    if t / 8 % 2 < t / 16 % 2 {
        return Head::refused(p, Refusal::Form);
    }
    head_read(image, p, tag, run.end)
}

// The head whatever its tag.
#[tactic(auto, using(laws::proofs::Cases::choices), unfolding(crate::specs::Readers::head_at))]
pub(crate) fn any_head(image: &[u8], p: usize) -> Head
    ensures { result ≡ head_at image.now p }
{
    if image.len() <= p {
        return Head::refused(p, Refusal::Cut);
    }
    let tag = image[p];
    if 32 <= tag {
        return Head::refused(p, Refusal::Form);
    }
    head_by(image, p, tag)
}

// The head without a password, with room for all options.
fn short_head(image: &[u8], p: usize, tag: u8) -> Head
    requires { (p + 9 ≤ length image.now) × (tag < 16) }
    ensures { result ≡ head_read image.now p tag (options_end p tag) }
{
    let t = tag as usize;
    let end = p + options_length(tag);
    Head {
        refusal: None,
        typeable: true,
        last: t / 2 % 2 == 1,
        submenu: t / 8 % 2 == 1,
        protected: false,
        next: ImagePlace(p + word_in(image, p + 1)),
        table: ImagePlace(Image::PROLOG + word_in(image, p + submenu_offset(tag))),
        password: ImagePlace(end),
        end,
        component: ImagePlace(end + end % 2),
    }
}

// The head of the line whose tag is at a place.
pub fn read_head(image: &[u8], p: usize) -> Head
    ensures { result ≡ head_at image.now p }
{
    if room(image, p, Head::MOST) {
        let tag = image[p];
        if tag < 16 {
            return short_head(image, p, tag);
        }
    }
    // A local of its own, so that a short head is not copied.
    let other = any_head(image, p);
    other
}
