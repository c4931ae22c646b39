#![tactic(auto)]
// What the program `reduce` makes of the bytes that it reads: the text that it prints.
ghost use Rattle.std.specs.Prelude.{◌≡◌, ◌≤◌, min, length};
ghost use Rattle.tables.specs.Table.{Valid};
ghost use Rattle.rules.specs.Rules.{lent, offset_of};
ghost use Rattle.text.specs.Text.{filled, Puts};
ghost use Rattle.image_text.specs.ImageText.{masked_text};
ghost use Rattle.desk.specs.Printed.{reduction_text, printed};
ghost use Rattle.listing.specs.Listing.{blank as blank_record};

use image_text::{SmallTable, TableText};
use rules::Table;

// A record to be written over.
fn blank() -> records::Record
    ensures { result ≡ blank_record }
{
    records::Record {
        depth: records::Depth::Number(0),
        fate: records::Fate::Unreached,
    }
}

// Writes the listing of the reduction of a valid table of at most 128 rows, or the refusal of its mask.
fn write_reduction(offset: Option<u16>, mask: u32, table: Table<'_>, out: &mut [u8]) -> usize
    requires { Valid (lent table) × (table.rows ≤ 128) }
    ensures { Puts out.old 0 (masked_text mask (reduction_text (offset_of offset) mask) (lent table.entry)) out.new result }
{
    let mut newcells = [0u16; 4096];
    let mut newmarks = [0u8; 16];
    let mut scratch = [0u16; 8640];
    let done = reducer::reduce_recorded(
        ways::Way::First,
        offset,
        mask,
        table,
        &mut newcells,
        &mut newmarks,
        [blank(); 1024],
        &mut scratch,
    );
    match done.answer {
        Err(of_mask) => lines::put_refusal(out, 0, of_mask.rule.number(), of_mask.place),
        Ok(left) => listing::put_listing(
            out,
            0,
            left as u16,
            table.events as u16,
            weights::counted(mask),
            &newcells,
            &newmarks,
            table.rows as u16,
            done.records,
        ),
    }
}

// The listing of the reduction of a table, from an offset on.
#[derive(Clone, Copy)]
struct Reduction {
    offset: Option<u16>,
}

impl TableText for Reduction {
    ghost text = { λ r mask. reduction_text (offset_of r.offset) mask };

    fn write(&self, mask: u32, small: SmallTable<'_>, out: &mut [u8]) -> usize {
        write_reduction(self.offset, mask, small.table, out)
    }
}

// Writes what `reduce` prints for its input, as far as there is room, and answers how many bytes that are: all of them if fewer than there is room for.
pub fn write_text(input: &[u8], out: &mut [u8]) -> usize
    ensures { let t = printed input.now in let room = out.old in
        (out.new ≡ filled room t)
        × (result ≡ min (length t) (length room)) }
{
    if input.len() < 6 {
        return lines::put_refusal(out, 0, 8, 0);
    }
    let offset = image_text::offset_of(input[0], input[1]);
    let mask = image_text::mask_of(input[2], input[3], input[4], input[5]);
    image_text::write_image_text(&Reduction { offset }, mask, &input[6..], out)
}
