#![tactic(auto)]
// What a program prints that reads a mask and an image of at most 128 rows: the definition is in specs/, its laws in proofs/. The code reads the offset, the mask and the image.
ghost use Rattle.std.specs.Prelude.{◌≡◌, List, ℕ, ◌+◌, ◌*◌, ◌≤◌};
ghost use Rattle.tables.specs.Table.{Table, Valid};
ghost use Rattle.text.specs.Text.{Puts};
ghost use Rattle.rules.specs.Rules.{lent, offset_of};
ghost use Rattle.image_text.specs.ImageText.{stored_offset, masked_text, text_of_image};
ghost use Rattle.image_text.specs.Loaded.{Loads};

use image_sections::Shape;
use rules::{Refusal, Table};

// The offset that stands in two bytes, low byte first; 65,535 is none.
pub fn offset_of(low: u8, high: u8) -> Option<u16>
    ensures { offset_of result ≡ stored_offset (low + 256 * high) }
{
    let k = (low as u16) + 256 * (high as u16);
    if k == 65535 {
        return None;
    }
    Some(k)
}

// The mask that stands in four bytes, low byte first.
pub fn mask_of(first: u8, second: u8, third: u8, fourth: u8) -> u32
    ensures { result ≡ first + 256 * second + 65536 * (third + 256 * fourth) }
{
    (first as u32) + 256 * (second as u32) + 65536 * ((third as u32) + 256 * (fourth as u32))
}

// An image that was read: the answer and, of a table, its cells and its mark bytes, in front, and how many there are of each.
#[derive(Clone, Copy)]
pub struct Loaded {
    pub read: Result<Shape, Refusal>,
    pub cells: [u16; 4096],
    pub marks: [u8; 16],
    pub count: usize,
    pub bytes: usize,
}

// Reads an image of at most 128 rows.
pub fn load(image: &[u8]) -> Loaded
    ensures { Loads image.now result }
{
    let mut cells = [0u16; 4096];
    let mut marks = [0u8; 16];
    let read = image_reader::read_within(rules::winch(), 128, image, &mut cells, &mut marks);
    let Ok(shape) = read else {
        return Loaded {
            read,
            cells,
            marks,
            count: 0,
            bytes: 0,
        };
    };
    let count = shape.rows * shape.events;
    let bytes = marks::mark_bytes(shape.rows);
    Loaded {
        read,
        cells,
        marks,
        count,
        bytes,
    }
}

// A table that was read: it is valid, and has at most 128 rows.
#[derive(Clone, Copy)]
pub struct SmallTable<'a> {
    pub table: Table<'a>,
    ghost valid: { Valid (lent table) },
    ghost few: { table.rows ≤ 128 },
}

// What tells one program from another: the text of a table that was read.
pub trait TableText {
    // The text of a table under a mask that keeps its rule.
    ghost text: { Self → ℕ → Table → List ℕ };

    // Writes it, or the refusal of the mask.
    fn write(&self, mask: u32, small: SmallTable<'_>, out: &mut [u8]) -> usize
        ensures { Puts out.old 0 (masked_text mask (text self.now mask) (lent small.entry.table)) out.new result };
}

// Writes the text for an image.
pub fn write_image_text<T: TableText>(
    table_text: &T,
    mask: u32,
    image: &[u8],
    out: &mut [u8],
) -> usize
    ensures { Puts out.old 0 (text_of_image (masked_text mask (T.text table_text.now mask)) image.now) out.new result }
{
    let Loaded {
        read,
        cells,
        marks,
        count,
        bytes,
    } = load(image);
    match read {
        Err(refusal) => lines::put_refusal(out, 0, refusal.rule.number(), refusal.place),
        Ok(shape) => {
            let table = Table {
                rows: shape.rows,
                events: shape.events,
                start: shape.start,
                cells: &cells[..count],
                marks: &marks[..bytes],
            };
            table_text.write(mask, SmallTable { table }, out)
        }
    }
}
