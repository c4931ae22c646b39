#![tactic(auto)]
// What the program `given_up` makes of the bytes that it reads: the text that it prints.
ghost use Rattle.std.specs.Prelude.{◌≡◌, ◌≤◌, min, length};
ghost use Rattle.tables.specs.Table.{Valid};
ghost use Rattle.rules.specs.Rules.{lent, offset_of};
ghost use Rattle.text.specs.Text.{joined, filled, Puts};
ghost use Rattle.image_text.specs.ImageText.{masked_text};
ghost use Rattle.loss_desk.specs.Lines.{line_at};
ghost use Rattle.loss_desk.specs.Printed.{text_of_losses, printed};

use image_text::{SmallTable, TableText};
use rules::Table;

// Writes the line of a row, if it folds into another.
fn put_row(
    out: &mut [u8],
    at: usize,
    rows: u16,
    events: u16,
    cells: &[u16],
    scratch: &[u16],
    row: u16,
) -> usize
    requires { rows ≤ 128 }
    ensures { Puts out.old at (line_at rows events cells.now scratch.now row) out.new result }
{
    let into = losses::into(scratch, rows, row);
    if into == row {
        return at;
    }
    let mut run = [0u8; 128];
    let length = walks::walk(rows, events, cells, scratch, row, into, &mut run);
    let far = losses::distance(scratch, row, into) as usize;
    loss_text::put_loss(out, at, row, into, far, &run[..length])
}

// Writes the lines of all rows.
fn put_rows(out: &mut [u8], rows: u16, events: u16, cells: &[u16], scratch: &[u16]) -> usize
    requires { rows ≤ 128 }
    ensures { Puts out.old 0 (joined rows (line_at rows events cells.now scratch.now)) out.new result }
{
    let mut next = 0;
    for row in 0..rows {
        next = put_row(out, next, rows, events, cells, scratch, row);
    }
    next
}

// Writes the lines of a valid table of at most 128 rows, or the refusal of its mask.
fn write_losses(offset: Option<u16>, mask: u32, table: Table<'_>, out: &mut [u8]) -> usize
    requires { Valid (lent table) × (table.rows ≤ 128) }
    ensures { Puts out.old 0 (masked_text mask (text_of_losses (offset_of offset) mask) (lent table.entry)) out.new result }
{
    let mut scratch = [0u16; 8640];
    match last_run_rules::check(mask, table, 0, 8640) {
        Err(of_mask) => lines::put_refusal(out, 0, of_mask.rule.number(), of_mask.place),
        Ok(()) => {
            folding::fold_rows(
                offset,
                mask,
                table.rows,
                table.events,
                table.start,
                table.cells,
                table.marks,
                &mut scratch,
            );
            put_rows(
                out,
                table.rows as u16,
                table.events as u16,
                table.cells,
                &scratch,
            )
        }
    }
}

// What the folded rows of a table give up, from an offset on.
#[derive(Clone, Copy)]
struct GivenUp {
    offset: Option<u16>,
}

impl TableText for GivenUp {
    ghost text = { λ l mask. text_of_losses (offset_of l.offset) mask };

    fn write(&self, mask: u32, small: SmallTable<'_>, out: &mut [u8]) -> usize {
        write_losses(self.offset, mask, small.table, out)
    }
}

// Writes what `given_up` prints for its input, as far as there is room, and answers how many bytes that are: all of them if fewer than there is room for.
pub fn write_loss_text(input: &[u8], out: &mut [u8]) -> usize
    ensures { let t = printed input.now in let room = out.old in
        (out.new ≡ filled room t)
        × (result ≡ min (length t) (length room)) }
{
    if input.len() < 6 {
        return lines::put_refusal(out, 0, 8, 0);
    }
    let offset = image_text::offset_of(input[0], input[1]);
    let mask = image_text::mask_of(input[2], input[3], input[4], input[5]);
    image_text::write_image_text(&GivenUp { offset }, mask, &input[6..], out)
}
