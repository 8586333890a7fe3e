// The check of an image and a sheet: refusals 2 to 11 in the order of the walk.
ghost use Rattle.std.specs.Prelude.{◌≡◌, ◌+◌, ◌<◌, length};
ghost use Rattle.cmf.specs.Places.{components_from};
ghost use Rattle.acceptance.specs.Check.{take_title, agrees, line_placed, count_line, take_line};
ghost use Rattle.acceptance.specs.Check.{take_field, take_component, on_components, on_line, on_table};
ghost use Rattle.acceptance.specs.Check.{checked};
ghost use Rattle.acceptance.specs.Index.{capacity, seen, index_of};
ghost use Rattle.acceptance.specs.Clean.{StaysClean};

use acceptance::index::{Entry, apart_from, set_entry};
use acceptance::line_place::LinePlace;
use acceptance::progress::Progress;
use acceptance::shared::{is_padded, prolog_refusal};
use cmf::component::{Component, read_component};
use cmf::head::{Head, back_at, is_first, read_head};
use cmf::image::Image;
use cmf::refusal::Refusal;
use cmf::title::{Title, read_title};
use laws::has_triple;

// The numbers of an index: three for each field that there may be.
const INDEX: usize = 3 * Image::MAX_FIELDS;

// What a check found: how far the walk came and its refusal, and the fields that it reached, three numbers to
// a field.
#[derive(Drop)]
pub struct Checked {
    pub progress: Progress,
    pub index: [usize; INDEX],
}

#[tactic(auto, using(laws::proofs::Cases::choices), unfolding(acceptance::specs::Check::take_title))]
fn take_title(t: Title, w: Progress) -> Progress
    ensures { result ≡ take_title t w }
{
    match t.refusal {
        None => w.read_to(t.end),
        Some(refusal) => w.refused(refusal),
    }
}

// Whether a line's first mark and pointer back agree with its place.
#[tactic(auto, using(laws::proofs::Cases::choices), unfolding(acceptance::specs::Check::agrees))]
fn is_agreeing(image: &[u8], line: LinePlace) -> bool
    ensures { result ≡ agrees image.now line.number line.before line.at }
{
    let first = is_first(image, line.at);
    if line.number == 0 {
        return first;
    }
    !first && line.before <= line.at && back_at(image, line.at) == line.at - line.before
}

#[tactic(auto, using(laws::proofs::Cases::choices), unfolding(acceptance::specs::Check::line_placed))]
fn is_placed(image: &[u8], line: LinePlace, w: Progress) -> bool
    ensures { result ≡ line_placed image.now line.number line.before line.at w }
{
    line.at == w.at + (1 - w.at % 2) && is_padded(image, w.at, line.at) && is_agreeing(image, line)
}

#[tactic(auto, using(laws::proofs::Cases::choices), unfolding(acceptance::specs::Check::count_line))]
fn count_line(n: usize, h: Head, w: Progress) -> Progress
    ensures { result ≡ count_line n h w }
{
    if Image::MAX_TABLE_LINES <= n || Image::MAX_LINES <= w.lines {
        return w.refused(Refusal::Limit);
    }
    if !h.typeable {
        return w.refused(Refusal::Setting);
    }
    Progress {
        refusal: None,
        at: h.end,
        lines: w.lines + 1,
        fields: w.fields,
    }
}

// The head of a line.
#[tactic(auto, using(laws::proofs::Cases::choices), unfolding(acceptance::specs::Check::take_line))]
fn take_line(image: &[u8], line: LinePlace, h: Head, w: Progress) -> Progress
    ensures { result ≡ take_line image.now line.number line.before line.at h w }
{
    match h.refusal {
        Some(refusal) => w.refused(refusal),
        None if is_placed(image, line, w) => count_line(line.number, h, w),
        None => w.refused(Refusal::Form),
    }
}

// A field: counted, its settings, its bytes in the sheet.
#[tactic(auto, using(laws::proofs::Cases::choices), unfolding(acceptance::specs::Check::take_field))]
fn take_field(extent: usize, c: Component, w: Progress, index: &mut [usize]) -> Progress
    ensures index_after { seen result index.new
        ≡ take_field extent (capacity index.old) c (seen w index.old) }
    ensures stays_clean { StaysClean w.fields index.old result.fields index.new }
{
    let k = w.fields;
    let entry = Entry::of_field(c.field);
    if !has_triple(index.len(), k) {
        return w.refused(Refusal::Limit);
    }
    if let Some(refusal) = c.refusal {
        return w.refused(refusal);
    }
    if !entry.in_sheet(extent) {
        return w.refused(Refusal::Sheet);
    }
    if !apart_from(entry, index, k) {
        return w.refused(Refusal::Overlap);
    }
    set_entry(index, k, entry);
    Progress {
        refusal: None,
        at: c.end,
        lines: w.lines,
        fields: k + 1,
    }
}

// A component at p.
#[tactic(auto, using(laws::proofs::Cases::choices), unfolding(acceptance::specs::Check::take_component))]
fn take_component(
    image: &[u8],
    extent: usize,
    p: usize,
    c: Component,
    w: Progress,
    index: &mut [usize],
) -> Progress
    ensures index_after { seen result index.new
        ≡ take_component image.now extent (capacity index.old) p c
        (seen w index.old) }
    ensures stays_clean { StaysClean w.fields index.old result.fields index.new }
{
    if matches!(c.refusal, Some(Refusal::Cut)) {
        return w.refused(Refusal::Cut);
    }
    if !is_padded(image, w.at, p) {
        return w.refused(Refusal::Form);
    }
    if c.fielded {
        return take_field(extent, c, w, index);
    }
    match c.refusal {
        None => w.read_to(c.end),
        Some(refusal) => w.refused(refusal),
    }
}

// The components of a line, the first of them at p.
fn check_components(
    image: &[u8],
    extent: usize,
    p: usize,
    w: Progress,
    index: &mut [usize],
) -> Progress
    ensures index_after { seen result index.new
        ≡ on_components image.now extent (capacity index.old)
        (components_from image.now (length image.now + 1) p)
        (seen w index.old) }
    ensures stays_clean { StaysClean w.fields index.old result.fields index.new }
{
    let mut v = w;
    let mut c = p;
    for _ in 0..image.len() + 1 {
        let component = read_component(image, c);
        v = take_component(image, extent, c, component, v, index);
        if v.refusal.is_some() || component.last {
            return v;
        }
        c = component.next.0;
    }
    v
}

// A line; `below` levels are left for its submenu.
#[cycle(check_line_check_table)]
fn check_line(
    image: &[u8],
    extent: usize,
    below: usize,
    line: LinePlace,
    w: Progress,
    index: &mut [usize],
) -> Progress
    ensures index_after { seen result index.new
        ≡ on_line image.now extent (capacity index.old)
        (on_table image.now extent (capacity index.old) below)
        line.number line.before line.at
        (seen w index.old) }
    ensures stays_clean { StaysClean w.fields index.old result.fields index.new }
{
    let h = read_head(image, line.at);
    let v = take_line(image, line, h, w);
    if v.refusal.is_some() {
        return v;
    }
    let q = check_components(image, extent, h.component.0, v, index);
    if q.refusal.is_some() {
        return q;
    }
    if h.submenu {
        let t = check_table(image, extent, below, h.table.0, q, index);
        return t.past_line(q.at);
    }
    q
}

// The table at a place; `left` levels are left, its own among them.
#[cycle(check_line_check_table)]
fn check_table(
    image: &[u8],
    extent: usize,
    left: usize,
    at: usize,
    w: Progress,
    index: &mut [usize],
) -> Progress
    ensures index_after { seen result index.new
        ≡ on_table image.now extent (capacity index.old) left at
        (seen w index.old) }
    ensures stays_clean { StaysClean w.fields index.old result.fields index.new }
{
    let t = read_title(image, at);
    let mut v = take_title(t, w);
    if v.refusal.is_some() {
        return v;
    }
    if left == 0 {
        return v.refused(Refusal::Limit);
    }
    let below = left - 1;
    let mut line = LinePlace::first(t.line.0);
    for _ in 0..Image::MAX_TABLE_LINES + 1 {
        v = check_line(image, extent, below, line, v, index);
        if v.refusal.is_some() {
            return v;
        }
        let h = read_head(image, line.at);
        if h.last {
            return v;
        }
        line = line.next(h.next.0);
    }
    v
}

// The refusal of an image for a sheet of so many bytes, if there is one, and the fields that were reached,
// with zeros after them.
pub fn check(image: &[u8], extent: usize) -> Checked
    ensures progress_value { result.progress ≡ (checked image.now extent).progress }
    ensures index_value { result.index ≡ index_of (checked image.now extent).fields }
{
    let mut index = [0usize; INDEX];
    let start = Progress {
        refusal: None,
        at: 0,
        lines: 0,
        fields: 0,
    };
    let progress = match prolog_refusal(image) {
        Some(refusal) => start.refused(refusal),
        None => check_table(
            image,
            extent,
            Image::MAX_DEPTH,
            Image::PROLOG,
            start,
            &mut index,
        ),
    };
    Checked { progress, index }
}
