#![tactic(auto)]
// The image writer: it writes the image of a table, in either form, into lent bytes.
ghost use Rattle.std.specs.Prelude.{◌≡◌, false, ℕ, ◌+◌, ◌*◌, ◌/◌, ◌≤◌, ◌<◌, length, get_or};
ghost use Rattle.tables.specs.Lists.{over};
ghost use Rattle.rules.specs.Rules.{lent};
ghost use Rattle.tables.specs.Table.{mark_byte_count};
ghost use Rattle.images.specs.Image.{number, width, step_bytes, target_bytes, targets, too_far, image_of, length_of_image, Fits};
ghost use Rattle.images.specs.declared.Form.TheVariants.{Radio};
ghost use Rattle.image_writer.specs.Write.{written_as, image_in_as, written, image_in};

use images::Form;
use rules::{Refusal, Rule, Table};

// Writes a number at a place, 16 bits, low byte first.
fn put_number(out: &mut [u8], at: usize, n: usize)
    requires { at + 2 ≤ length out.old }
    ensures { out.new ≡ over out.old at (number n) }
{
    out[at] = (n % 256) as u8;
    out[at + 1] = (n / 256 % 256) as u8;
}

// Writes bytes from a place on. It is a loop, since `copy_from_slice` would ask a program in C for `memmove`.
fn put_bytes(out: &mut [u8], at: usize, bytes: &[u8])
    requires { at + length bytes.now ≤ length out.old }
    ensures { out.new ≡ over out.old at bytes.now }
{
    for i in 0..bytes.len() {
        out[at + i] = bytes[i];
    }
}

// Writes a step at a place; one that is too far has no byte.
fn put_step(out: &mut [u8], at: usize, step: Option<i8>)
    requires { at + length (step_bytes step) ≤ length out.old }
    ensures { out.new ≡ over out.old at (step_bytes step) }
{
    if let Some(d) = step {
        out[at] = steps::byte_of(d);
    }
}

// Writes a row's target at a place.
fn put_target(form: Form, out: &mut [u8], at: usize, row: u16, target: u16)
    requires { at + length (target_bytes form row target) ≤ length out.old }
    ensures { out.new ≡ over out.old at (target_bytes form row target) }
{
    match form {
        Form::Plain => put_number(out, at, target as usize),
        Form::Radio => put_step(out, at, steps::step_to(row, target)),
    }
}

// Writes the targets from a place on.
fn put_targets(form: Form, events: usize, cells: &[u16], out: &mut [u8], at: usize)
    requires { (0 < events) × (length cells.now ≤ 65535) × ((i : ℕ) → i < length cells.now → too_far form (i / events) (get_or cells.now i 0) ≡ false) × (at + width form * length cells.now ≤ length out.old) }
    ensures { out.new ≡ over out.old at (targets form events cells.now) }
{
    let width = images::width(form);
    for (i, cell) in cells.iter().enumerate() {
        put_target(form, out, at + width * i, (i / events) as u16, *cell);
    }
}

// Writes the sections in order.
fn put_image(form: Form, table: Table<'_>, out: &mut [u8])
    requires { let T = lent table in
        (T.rows ≤ 1024) × (0 < T.events) × (T.events ≤ 32) × (length T.cells ≡ T.rows * T.events) × (length T.marks ≡ mark_byte_count T.rows) × Fits form T
        × (length_of_image form T.rows T.events ≤ length out.old) }
    ensures { out.new ≡ over out.old 0 (image_of form (lent table.entry)) }
{
    put_number(out, 0, table.rows);
    put_bytes(out, 2, table.marks);
    let at = 2 + table.marks.len();
    put_number(out, at, table.rows * table.events);
    put_targets(form, table.events, table.cells, out, at + 2);
    let end = at + 2 + images::width(form) * table.cells.len();
    put_number(out, end, 1);
    put_number(out, end + 2, table.start);
}

// Writes the image of a table in a form, and answers its length.
pub fn write_as(form: Form, table: Table<'_>, out: &mut [u8]) -> Result<usize, Refusal>
    ensures { let T = lent table.entry in let b = out.old in
        (result ≡ written_as form T (length b))
        × (out.new ≡ image_in_as form T b) }
{
    image_rules::check_image(form, table)?;
    let length = images::image_length(form, table.rows as u16, table.events as u16);
    if out.len() < length {
        return Err(Rule::Room.at(0));
    }
    put_image(form, table, out);
    Ok(length)
}

// Writes document 01's image of a table, and answers its length.
pub fn write_image(table: Table<'_>, out: &mut [u8]) -> Result<usize, Refusal>
    ensures { let T = lent table.entry in let b = out.old in
        (result ≡ written T (length b))
        × (out.new ≡ image_in T b) }
{
    write_as(Form::Plain, table, out)
}

// Writes the radio image of a table, and answers its length.
pub fn write_radio_image(table: Table<'_>, out: &mut [u8]) -> Result<usize, Refusal>
    ensures { let T = lent table.entry in let b = out.old in
        (result ≡ written_as Radio T (length b))
        × (out.new ≡ image_in_as Radio T b) }
{
    write_as(Form::Radio, table, out)
}
