#![tactic(auto)]
// The pack reader: it reads the radio images of a pack, one after another, into a lent list, lent cells and lent mark bytes.
ghost use Rattle.std.specs.Prelude.{◌≡◌, false, [], ◌∷◌, ◌+◌, ◌*◌, ◌-◌, ◌≤◌, length, drop};
ghost use Rattle.tables.specs.Lists.{over};
ghost use Rattle.rules.specs.Rules.{winch};
ghost use Rattle.images.specs.Image as Image;
ghost use Rattle.images.specs.declared.Form.TheVariants.{Radio};
ghost use Rattle.image_sections.specs.Read.{any_rows};
ghost use Rattle.image_reader.specs.Read.{read_in_form};
ghost use Rattle.packs.specs.Pack.{list_of, cells_of, marks_of};
ghost use Rattle.pack_images.specs.Images.{tables_of, images_read};
ghost use Rattle.pack_reader.specs.Read.{unpacked, answer_of, left_in};
ghost use Rattle.pack_reader.specs.Walk.{part_from, Fitting};

use image_sections::Shape;
use images::Form;
use rules::{Refusal, Rule};

// Puts rows, events and start of a table into the list, from a place on.
fn put_entry(list: &mut [u16], at: usize, rows: usize, events: usize, start: usize)
    requires { (at + 3 ≤ length list.old) × (rows ≤ 65535) × (events ≤ 65535) × (start ≤ 65535) }
    ensures { list.new ≡ over list.old at (rows ∷ events ∷ start ∷ []) }
{
    list[at] = rows as u16;
    list[at + 1] = events as u16;
    list[at + 2] = start as u16;
}

// Reads the image at a place of the pack into the cells and mark bytes from a place on.
fn take_image(
    pack: &[u8],
    at: usize,
    cells: &mut [u16],
    c: usize,
    marks: &mut [u8],
    m: usize,
) -> Result<Shape, Refusal>
    requires { (at ≤ length pack.now) × (c ≤ length cells.old) × (m ≤ length marks.old) }
    ensures { let b = drop at pack.now in let given = cells.old in let bytes = marks.old in
        (result ≡ read_in_form false Radio winch any_rows b (length given - c) (length bytes - m))
        × (cells.new ≡ part_from result (λ rows events. Image.cells_of Radio b rows events) given c)
        × (marks.new ≡ part_from result (λ rows events. Image.marks_of b rows) bytes m) }
{
    image_reader::read_form(
        false,
        Form::Radio,
        &pack[at..],
        &mut cells[c..],
        &mut marks[m..],
    )
}

// Reads the images one after another; all was judged, and there is room.
fn take_images(pack: &[u8], count: usize, list: &mut [u16], cells: &mut [u16], marks: &mut [u8])
    requires { let b = pack.now in let F = images_read (length b) count (drop 2 b) in
        (2 ≤ length b) × (count ≤ 16) × Fitting F (length list.old) (length cells.old) (length marks.old) }
    ensures { let b = pack.now in let l = tables_of (images_read (length b) count (drop 2 b)) in
        (list.new ≡ over list.old 0 (list_of l))
        × (cells.new ≡ over cells.old 0 (cells_of l))
        × (marks.new ≡ over marks.old 0 (marks_of l)) }
{
    let mut at = 2;
    let mut c = 0;
    let mut m = 0;
    for i in 0..count {
        let read = take_image(pack, at, cells, c, marks, m);
        let Ok(table) = read else {
            // Never: all was judged before.
            return;
        };
        put_entry(list, 3 * i, table.rows, table.events, table.start);
        at += images::image_length(Form::Radio, table.rows as u16, table.events as u16);
        c += table.rows * table.events;
        m += marks::mark_bytes(table.rows);
    }
}

// Reads a pack, and answers how many tables it has. Rows, events and start of each are put into the list, three entries a table; cells and mark bytes hold
// the tables one after another. Nothing is written before all is judged.
pub fn read_pack(
    pack: &[u8],
    list: &mut [u16],
    cells: &mut [u16],
    marks: &mut [u8],
) -> Result<usize, Refusal>
    ensures { let entries = list.old in let given = cells.old in let bytes = marks.old in
        let found = unpacked pack.now (length entries) (length given) (length bytes) in
        (result ≡ answer_of found)
        × (list.new ≡ left_in found list_of entries)
        × (cells.new ≡ left_in found cells_of given)
        × (marks.new ≡ left_in found marks_of bytes) }
{
    let head = image_numbers::number(pack, 0);
    let Ok((count, _)) = head else {
        return Err(Rule::Short.at(pack.len()));
    };
    if rules::beyond(16, count) {
        return Err(Rule::Pack.at(0));
    }
    let needs = pack_images::judge(pack.len(), count, &pack[2..])?;
    if list.len() < 3 * count {
        return Err(Rule::Room.at(0));
    }
    if cells.len() < needs.cells {
        return Err(Rule::Room.at(0));
    }
    if marks.len() < needs.marks {
        return Err(Rule::Room.at(0));
    }
    take_images(pack, count, list, cells, marks);
    Ok(count)
}
