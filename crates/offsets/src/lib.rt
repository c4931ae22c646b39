#![tactic(auto)]
// The fewest rows at every offset, on one sheet.
ghost use Rattle.std.specs.Prelude.{◌≡◌, ℕ, ◌<◌, length, get_or};
ghost use Rattle.rules.specs.Rules.{lent};
ghost use Rattle.sheet_rules.specs.Checks.{verdict};
ghost use Rattle.offsets.specs.Sheet.{Promise};

use rules::{Refusal, Table};

// The same marks. Each is a byte: the type of a slice says so to a proof, that of a table does not.
fn bytes(marks: &[u8]) -> &[u8]
    ensures { (result.now ≡ marks.now) × ((i : ℕ) → get_or marks.now i 0 < 256) }
{
    marks
}

// Lists the fewest rows of a table at every offset from 0 to twice its rows, where a mask says which events count; how many entries were written.
pub fn write_sheet(
    mask: u32,
    table: Table<'_>,
    list: &mut [u16],
    scratch: &mut [u16],
) -> Result<usize, Refusal>
    ensures { let T = lent table.entry in
        let l = list.old in let s = scratch.old in
        Promise (verdict mask T (length l) (length s)) mask T l s result list.new scratch.new }
{
    let _ = bytes(table.marks);
    sheet_rules::check(mask, table, list.len(), scratch.len())?;
    let from = apart::find_apart(
        mask,
        table.rows,
        table.events,
        table.start,
        table.cells,
        table.marks,
        scratch,
    );
    let n = table.rows as u16;
    sheet_counts::fill(scratch, from, n, list);
    scratch::clear(scratch, 0, pairs::needed(n));
    Ok(2 * table.rows + 1)
}
