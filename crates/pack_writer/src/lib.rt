#![tactic(auto)]
// The pack writer: it writes the radio images of tables that lie one after another, behind their count, into lent bytes.
ghost use Rattle.std.specs.Prelude.{◌≡◌, ◌≤◌, length};
ghost use Rattle.tables.specs.Lists.{over};
ghost use Rattle.images.specs.Image.{number};
ghost use Rattle.packs.specs.Pack.{tables_in, cells_needed, marks_needed, pack_length, radio_images, Every, Sendable};
ghost use Rattle.pack_writer.specs.Write.{packed, pack_in};

use rules::{Refusal, Table};

// Writes the count, which is at most 16: its high byte is 0.
fn put_count(out: &mut [u8], count: usize)
    requires { (count ≤ 16) × (2 ≤ length out.old) }
    ensures { out.new ≡ over out.old 0 (number count) }
{
    out[0] = count as u8;
    out[1] = 0;
}

// Writes the images behind the count, each from the byte where the one before it ends, and answers where the last ends.
fn put_images(list: &[u16], cells: &[u16], marks: &[u8], out: &mut [u8]) -> usize
    requires { let l = list.now in let c = cells.now in let m = marks.now in
        (length c ≡ cells_needed l) × (length m ≡ marks_needed l) × Every Sendable (tables_in l c m) × (pack_length l ≤ length out.old) }
    ensures { let l = list.now in
        (result ≡ pack_length l)
        × (out.new ≡ over out.old 2 (radio_images (tables_in l cells.now marks.now))) }
{
    let mut cell = 0;
    let mut mark = 0;
    let mut to = 2;
    for i in 0..list.len() / 3 {
        let entry = pack_rules::entry_at(list, 3 * i);
        let next_cell = cell + entry.cells;
        let next_mark = mark + entry.marks;
        let table = Table {
            rows: entry.rows,
            events: entry.events,
            start: entry.start,
            cells: &cells[cell..next_cell],
            marks: &marks[mark..next_mark],
        };
        let Ok(length) = image_writer::write_radio_image(table, &mut out[to..]) else {
            // Never: all was judged before.
            return to;
        };
        cell = next_cell;
        mark = next_mark;
        to += length;
    }
    to
}

// Writes the pack of tables, and answers its length. Rows, events and start of each table stand in the list, three entries a table; their cells and mark
// bytes lie one after another. Nothing is written before all is judged.
pub fn write_pack(
    list: &[u16],
    cells: &[u16],
    marks: &[u8],
    out: &mut [u8],
) -> Result<usize, Refusal>
    ensures { let l = list.now in let c = cells.now in let m = marks.now in let b = out.old in
        (result ≡ packed l c m (length b))
        × (out.new ≡ pack_in l c m b) }
{
    pack_rules::check_pack(list, cells, marks, out.len())?;
    put_count(out, list.len() / 3);
    Ok(put_images(list, cells, marks, out))
}
