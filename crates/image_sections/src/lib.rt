#![tactic(auto)]
// What the sections of an image say, in both forms: each in order is opened into its value and the place after it, or gives its refusal; nothing is lent.
ghost use Rattle.std.specs.Prelude.{◌≡◌, ◌+◌, ◌*◌, ◌/◌, ◌≤◌, ◌<◌, length};
ghost use Rattle.images.specs.Image.{width};
ghost use Rattle.image_sections.specs.Read.{at_most, targets_rule};
ghost use Rattle.image_sections.specs.Sections.{section_of_marks, section_of_targets, section_of_start, sections_read};

use images::Form;
use rules::{Refusal, Rule};

// The rows, events and start of the table that was read.
#[derive(Clone, Copy)]
pub struct Shape {
    pub rows: usize,
    pub events: usize,
    pub start: usize,
}

// Marks: the row count, then the packed mark bytes.
#[tactic(auto, unfolding(crate::specs::Sections::section_of_marks))]
fn marks_section(limits: rules::Limits, small: u16, image: &[u8]) -> Result<(usize, usize), Refusal>
    ensures { result ≡ section_of_marks limits (at_most small) image.now }
{
    let count = image_numbers::number(image, 0);
    let Ok((rows, at)) = count else {
        return count;
    };
    if rules::beyond(limits.rows, rows) {
        return Err(Rule::Rows.at(0));
    }
    if (small as usize) < rows {
        return Err(Rule::Large.at(0));
    }
    let end = at + marks::mark_bytes(rows);
    if image.len() < end {
        return Err(Rule::Short.at(image.len()));
    }
    let last = at + rows / 8;
    if last < image.len() && marks::spare_set(rows, image[last]) {
        return Err(Rule::SpareMark.at(0));
    }
    Ok((rows, end))
}

// Whether each target is a row.
fn check_targets(
    form: Form,
    image: &[u8],
    at: usize,
    count: usize,
    events: usize,
    rows: usize,
) -> Result<(), Refusal>
    requires { (0 < events) × (events ≡ count / rows) × (count ≤ 65535) × (at + width form * count ≤ length image.now) }
    ensures { result ≡ targets_rule form image.now rows at count }
{
    let width = images::width(form);
    for i in 0..count {
        if rows <= image_numbers::target(form, image, (i / events) as u16, at + width * i) {
            return Err(Rule::Target.at(i));
        }
    }
    Ok(())
}

// Targets: their count, then as many targets.
#[tactic(auto, unfolding(crate::specs::Sections::section_of_targets))]
fn targets_section(
    form: Form,
    limits: rules::Limits,
    image: &[u8],
    rows: usize,
    place: usize,
) -> Result<(usize, usize), Refusal>
    requires { 0 < rows }
    ensures { result ≡ section_of_targets form limits image.now rows place }
{
    let head = image_numbers::number(image, place);
    let Ok((count, at)) = head else {
        return head;
    };
    if count % rows != 0 {
        return Err(Rule::Count.at(0));
    }
    let events = count / rows;
    if rules::beyond(limits.events, events) {
        return Err(Rule::Events.at(0));
    }
    let length = images::width(form) * count;
    if image.len() - at < length {
        return Err(Rule::Short.at(image.len()));
    }
    check_targets(form, image, at, count, events, rows)?;
    Ok((events, at + length))
}

// Start: the count 1, then the start row.
#[tactic(auto, unfolding(crate::specs::Sections::section_of_start))]
fn start_section(image: &[u8], rows: usize, place: usize) -> Result<(usize, usize), Refusal>
    ensures { result ≡ section_of_start image.now rows place }
{
    let head = image_numbers::number(image, place);
    let Ok((count, at)) = head else {
        return head;
    };
    if count != 1 {
        return Err(Rule::Count.at(0));
    }
    let only = image_numbers::number(image, at);
    let Ok((start, next)) = only else {
        return only;
    };
    if rows <= start {
        return Err(Rule::Row.at(0));
    }
    Ok((start, next))
}

// The sections in order; nothing may follow the last where the image stands alone.
#[tactic(auto, unfolding(crate::specs::Sections::sections_read))]
pub fn judge(
    alone: bool,
    form: Form,
    limits: rules::Limits,
    small: u16,
    image: &[u8],
) -> Result<Shape, Refusal>
    ensures { result ≡ sections_read alone form limits (at_most small) image.now }
{
    let (rows, at) = marks_section(limits, small, image)?;
    let (events, next) = targets_section(form, limits, image, rows, at)?;
    let (start, end) = start_section(image, rows, next)?;
    if alone && end < image.len() {
        return Err(Rule::Trailing.at(0));
    }
    Ok(Shape {
        rows,
        events,
        start,
    })
}
