#![tactic(auto)]
// The image reader, for both forms: once the sections are judged, the table is copied into lent cells and mark bytes.
ghost use Rattle.std.specs.Prelude.{◌≡◌, true, ℕ, ◌+◌, ◌*◌, ◌/◌, ◌≤◌, ◌<◌, length, take, drop};
ghost use Rattle.tables.specs.Lists.{over};
ghost use Rattle.rules.specs.Rules.{winch};
ghost use Rattle.images.specs.Image.{width, target_at, cells_at};
ghost use Rattle.images.specs.declared.Form.TheVariants.{Radio};
ghost use Rattle.image_sections.specs.Read.{any_rows, at_most};
ghost use Rattle.image_reader.specs.Read.{read_in_form, read_by, cells_as, cells_in, marks_in};

use image_sections::Shape;
use images::Form;
use rules::{Refusal, Rule};

// Copies mark bytes from a place of the image on. It is a loop, since `copy_from_slice` would ask a program in C for `memmove`.
fn copy_marks(image: &[u8], at: usize, count: usize, marks: &mut [u8])
    requires { (at + count ≤ length image.now) × (count ≤ length marks.old) }
    ensures { marks.new ≡ over marks.old 0 (take count (drop at image.now)) }
{
    for i in 0..count {
        marks[i] = image[at + i];
    }
}

// Copies targets from a place of the image on.
fn copy_cells(form: Form, image: &[u8], at: usize, count: usize, events: usize, cells: &mut [u16])
    requires { (0 < events) × (count ≤ 65535) × (at + width form * count ≤ length image.now) × (count ≤ length cells.old) × ((i : ℕ) → i < count → target_at form image.now (i / events) (at + width form * i) ≤ 65535) }
    ensures { cells.new ≡ over cells.old 0 (cells_at form image.now events at count) }
{
    let width = images::width(form);
    for i in 0..count {
        cells[i] = image_numbers::target(form, image, (i / events) as u16, at + width * i) as u16;
    }
}

// Reads an image in a form, of a table within limits and of few enough rows, into lent cells and mark bytes. Where it does not stand alone, more bytes may
// follow it. Nothing is written before all is judged.
pub fn read_as(
    alone: bool,
    form: Form,
    limits: rules::Limits,
    small: u16,
    image: &[u8],
    cells: &mut [u16],
    marks: &mut [u8],
) -> Result<Shape, Refusal>
    ensures { let b = image.now in let given = cells.old in let bytes = marks.old in
        (result ≡ read_in_form alone form limits (at_most small) b (length given) (length bytes))
        × (cells.new ≡ cells_as form result b given)
        × (marks.new ≡ marks_in result b bytes) }
{
    let shape = image_sections::judge(alone, form, limits, small, image)?;
    let count = shape.rows * shape.events;
    let bytes = marks::mark_bytes(shape.rows);
    if cells.len() < count || marks.len() < bytes {
        return Err(Rule::Room.at(0));
    }
    copy_marks(image, 2, bytes, marks);
    copy_cells(form, image, 4 + bytes, count, shape.events, cells);
    Ok(shape)
}

// Reads document 01's image of a table within limits and of few enough rows.
pub fn read_within(
    limits: rules::Limits,
    small: u16,
    image: &[u8],
    cells: &mut [u16],
    marks: &mut [u8],
) -> Result<Shape, Refusal>
    ensures { let b = image.now in let given = cells.old in let bytes = marks.old in
        (result ≡ read_by limits (at_most small) b (length given) (length bytes))
        × (cells.new ≡ cells_in result b given)
        × (marks.new ≡ marks_in result b bytes) }
{
    read_as(true, Form::Plain, limits, small, image, cells, marks)
}

// Reads an image in a form of any table that the winch takes.
pub fn read_form(
    alone: bool,
    form: Form,
    image: &[u8],
    cells: &mut [u16],
    marks: &mut [u8],
) -> Result<Shape, Refusal>
    ensures { let b = image.now in let given = cells.old in let bytes = marks.old in
        (result ≡ read_in_form alone form winch any_rows b (length given) (length bytes))
        × (cells.new ≡ cells_as form result b given)
        × (marks.new ≡ marks_in result b bytes) }
{
    let limits = rules::winch();
    let most = limits.rows;
    read_as(alone, form, limits, most, image, cells, marks)
}

// Document 01's reader: an image of any table that the winch takes.
pub fn read_image(image: &[u8], cells: &mut [u16], marks: &mut [u8]) -> Result<Shape, Refusal>
    ensures { let b = image.now in let given = cells.old in let bytes = marks.old in
        (result ≡ read_by winch any_rows b (length given) (length bytes))
        × (cells.new ≡ cells_in result b given)
        × (marks.new ≡ marks_in result b bytes) }
{
    read_form(true, Form::Plain, image, cells, marks)
}

// #102's reader: a radio image of any table that the winch takes.
pub fn read_radio_image(image: &[u8], cells: &mut [u16], marks: &mut [u8]) -> Result<Shape, Refusal>
    ensures { let b = image.now in let given = cells.old in let bytes = marks.old in
        (result ≡ read_in_form true Radio winch any_rows b (length given) (length bytes))
        × (cells.new ≡ cells_as Radio result b given)
        × (marks.new ≡ marks_in result b bytes) }
{
    read_form(true, Form::Radio, image, cells, marks)
}
