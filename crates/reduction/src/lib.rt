#![tactic(auto)]
// The reduction of a table into lent cells and mark bytes.
ghost use Rattle.std.specs.Prelude.{◌≡◌, ℕ, ◌<◌, length, get_or};
ghost use Rattle.rules.specs.Rules.{lent, offset_of, sound, left_by};
ghost use Rattle.tables.specs.Table.{Valid, weight_by};
ghost use Rattle.ways.specs.Ways.{need_of};
ghost use Rattle.tables.specs.Reduction.{reduced};
ghost use Rattle.scratch.specs.Scratch.{cleared};
ghost use Rattle.reduction_rules.specs.Checks.{verdict};
ghost use Rattle.reduction.specs.Reduce.{Promise};
ghost use Rattle.reduction.specs.Working.{work_by, Worked, Rewritten};

use rules::{Refusal, Table};
use ways::Way;

// How many rows are left, of how many given rows there are records to write, and how many scratch cells were used.
#[derive(Clone, Copy)]
pub struct Done {
    pub left: usize,
    pub rows: u16,
    pub used: usize,
}

// Folds the rows and writes the table that is left, if the table is valid and there is room; its row count.
fn rewrite(
    way: Way,
    offset: Option<u16>,
    mask: u32,
    table: Table<'_>,
    newcells: &mut [u16],
    newmarks: &mut [u8],
    scratch: &mut [u16],
) -> usize
    ensures { let T = lent table.entry in
        Rewritten (need_of way) (offset_of offset) mask T newcells.old newmarks.old scratch.old result newcells.new newmarks.new scratch.new }
{
    either_way::fold_rows(
        way,
        offset,
        mask,
        table.rows,
        table.events,
        table.start,
        table.cells,
        table.marks,
        scratch,
    );
    renumbering::renumber(
        table.rows,
        table.events,
        table.start,
        table.cells,
        table.marks,
        scratch,
        newcells,
        newmarks,
    )
}

// Does nothing, and tells a proof that mark bytes are bytes: it has this of a slice that is a parameter, but not of one in a struct.
fn bytes(marks: &[u8])
    ensures { (i : ℕ) → get_or marks.now i 0 < 256 }
{}

// Checks, reduces, and writes the new table; what the records say stands in scratch.
pub fn work(
    way: Way,
    offset: Option<u16>,
    mask: u32,
    table: Table<'_>,
    newcells: &mut [u16],
    newmarks: &mut [u8],
    scratch: &mut [u16],
    room: usize,
) -> Result<Done, Refusal>
    ensures { let T = lent table.entry in let k = offset_of offset in
        let cells = newcells.old in let marks = newmarks.old in let s = scratch.old in
        let need = need_of way in let v = verdict need mask T (length cells) (length marks) room (length s) in
        (result ≡ work_by need v k mask T)
        × (newcells.new ≡ left_by v cells (reduced (weight_by mask) k T).cells)
        × (newmarks.new ≡ left_by v marks (reduced (weight_by mask) k T).marks)
        × Worked need v k mask T s scratch.new
        × (v ≡ sound → Valid T) }
{
    bytes(table.marks);
    reduction_rules::check(
        way,
        mask,
        table,
        newcells.len(),
        newmarks.len(),
        room,
        scratch.len(),
    )?;
    let left = rewrite(way, offset, mask, table, newcells, newmarks, scratch);
    let rows = table.rows as u16;
    let used = ways::needed(way, rows);
    Ok(Done { left, rows, used })
}

// Clears the scratch cells that were used.
pub fn finish(scratch: &mut [u16], used: usize)
    ensures { scratch.new ≡ cleared scratch.old 0 used }
{
    scratch::clear(scratch, 0, used);
}

// Shortens a table without records, on the scratch of either way: callers lend no structs.
pub fn reduce_table(
    way: Way,
    offset: Option<u16>,
    mask: u32,
    table: Table<'_>,
    newcells: &mut [u16],
    newmarks: &mut [u8],
    scratch: &mut [u16],
) -> Result<usize, Refusal>
    ensures { let T = lent table.entry in
        let cells = newcells.old in let marks = newmarks.old in let s = scratch.old in
        let need = need_of way in let v = verdict need mask T (length cells) (length marks) T.rows (length s) in
        Promise need v (offset_of offset) mask T cells marks s result newcells.new newmarks.new scratch.new }
{
    let done = work(
        way, offset, mask, table, newcells, newmarks, scratch, table.rows,
    )?;
    finish(scratch, done.used);
    Ok(done.left)
}
