#![tactic(auto)]
// What the program `sheet` makes of the bytes that it reads: the text that it prints.
ghost use Rattle.std.specs.Prelude.{◌≡◌, ◌≤◌, min, length};
ghost use Rattle.tables.specs.Table.{Valid};
ghost use Rattle.rules.specs.Rules.{lent};
ghost use Rattle.text.specs.Text.{filled, Puts};
ghost use Rattle.image_text.specs.ImageText.{masked_text};
ghost use Rattle.sheet_desk.specs.Printed.{text_of_sheet, printed};

use image_text::{SmallTable, TableText};
use rules::Table;

// Writes the text of a valid table of at most 128 rows, or the refusal of its mask.
fn write_table_text(mask: u32, table: Table<'_>, out: &mut [u8]) -> usize
    requires { Valid (lent table) × (table.rows ≤ 128) }
    ensures { Puts out.old 0 (masked_text mask (text_of_sheet mask) (lent table.entry)) out.new result }
{
    let mut list = [0u16; 257];
    let mut scratch = [0u16; 8640];
    match offsets::write_sheet(mask, table, &mut list, &mut scratch) {
        Err(of_mask) => lines::put_refusal(out, 0, of_mask.rule.number(), of_mask.place),
        Ok(count) => sheet_text::put_sheet(
            out,
            table.rows,
            table.events,
            weights::counted(mask),
            &list[..count],
        ),
    }
}

// The sheet of a table.
#[derive(Clone, Copy)]
struct Sheet;

impl TableText for Sheet {
    ghost text = { λ _ mask. text_of_sheet mask };

    fn write(&self, mask: u32, small: SmallTable<'_>, out: &mut [u8]) -> usize {
        write_table_text(mask, small.table, out)
    }
}

// Writes what `sheet` prints for its input, as far as there is room, and answers how many bytes that are: all of them if fewer than there is room for.
pub fn write_sheet_text(input: &[u8], out: &mut [u8]) -> usize
    ensures { let t = printed input.now in let room = out.old in
        (out.new ≡ filled room t)
        × (result ≡ min (length t) (length room)) }
{
    if input.len() < 4 {
        return lines::put_refusal(out, 0, 8, 0);
    }
    let mask = image_text::mask_of(input[0], input[1], input[2], input[3]);
    image_text::write_image_text(&Sheet, mask, &input[4..], out)
}
