// The way to a field through the menu: the texts of the lines from the top table down to the field's own.
use crate::trim::trimmed;
use cmf::component::read_component;
use cmf::head::read_head;
use cmf::image::Image;
use cmf::place::is_on_line;
use cmf::text::string_bytes;
use cmf::title::read_title;
use console::words::Plain;
use std::alloc::{AllocError, Global};
use std::fmt;

// The places of the lines on the way from the table at a place on to the component at another, the
// component's own line first; none where no line has it. `left` levels are left, the table's own among them.
fn lines_in(
    alloc: Global,
    image: &[u8],
    left: usize,
    at: usize,
    place: usize,
) -> Result<Option<Vec<usize>>, AllocError> {
    if left == 0 {
        return Ok(None);
    }
    let mut p = read_title(image, at).line.0;
    for _ in 0..=Image::MAX_TABLE_LINES {
        if is_on_line(image, p, place) {
            return Ok(Some(vec![in alloc; p]?));
        }
        let h = read_head(image, p);
        if h.submenu {
            if let Some(mut lines) = lines_in(alloc, image, left - 1, h.table.0, place)? {
                lines.push(p)?;
                return Ok(Some(lines));
            }
        }
        if h.last {
            return Ok(None);
        }
        p = h.next.0;
    }
    Ok(None)
}

// The constant strings of the line at a place, a blank between each two.
#[derive(Clone, Copy)]
struct Line<'a> {
    image: &'a [u8],
    place: usize,
}

impl fmt::Display for Line<'_> {
    fn fmt<W: fmt::Write>(&self, f: &mut fmt::Formatter<W>) -> fmt::Result {
        let image = self.image;
        let mut c = read_head(image, self.place).component.0;
        let mut between = "";
        for _ in 0..=image.len() {
            let component = read_component(image, c);
            let text = if component.fielded {
                &[]
            } else {
                trimmed(string_bytes(image, c))
            };
            if !text.is_empty() {
                write!(f, "{between}{}", Plain(text))?;
                between = " ";
            }
            if component.last {
                break;
            }
            c = component.next.0;
        }
        if between.is_empty() {
            f.write_str("(no text)")?;
        }
        Ok(())
    }
}

// The way to a component: the places of the lines, the top table's first and the component's own last.
#[derive(Drop)]
pub struct Path<'a> {
    image: &'a [u8],
    lines: Vec<usize>,
}

impl<'a> Path<'a> {
    // The way to the component at an image place; no line where no line has it.
    pub fn find(alloc: Global, image: &'a [u8], place: usize) -> Result<Self, AllocError> {
        let found = lines_in(alloc, image, Image::MAX_DEPTH, Image::PROLOG, place)?;
        let mut lines = found.unwrap_or(Vec::new(alloc));
        lines.reverse();
        Ok(Path { image, lines })
    }
}

impl fmt::Display for Path<'_> {
    fn fmt<W: fmt::Write>(&self, f: &mut fmt::Formatter<W>) -> fmt::Result {
        let image = self.image;
        let mut between = "";
        for place in &self.lines {
            write!(
                f,
                "{between}{}",
                Line {
                    image,
                    place: *place
                }
            )?;
            between = " > ";
        }
        Ok(())
    }
}
