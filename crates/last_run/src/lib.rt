#![tactic(auto)]
// The last run that differs: what a row gives up if it is folded.
ghost use Rattle.std.specs.Prelude.{◌≡◌, ℕ, ◌<◌, length, get_or};
ghost use Rattle.tables.specs.Table.{weight_by};
ghost use Rattle.chosen.specs.GivenUp.{given_up};
ghost use Rattle.rules.specs.Rules.{lent, offset_of};
ghost use Rattle.last_run_rules.specs.Checks.{verdict};
ghost use Rattle.last_run.specs.LastRun.{Promise};

use last_run_rules::Told;
use rules::{Refusal, Table};

// The same marks. Each is a byte: the type of a slice says so to a proof, that of a table does not.
fn bytes(marks: &[u8]) -> &[u8]
    ensures { (result.now ≡ marks.now) × ((i : ℕ) → get_or marks.now i 0 < 256) }
{
    marks
}

// A row's distance to the row that it folds into, and the length of their chosen run in all its events; the run is written, an event a byte.
pub fn last_run(
    offset: Option<u16>,
    mask: u32,
    table: Table<'_>,
    row: usize,
    run: &mut [u8],
    scratch: &mut [u16],
) -> Result<Told, Refusal>
    ensures { let T = lent table.entry in let k = offset_of offset in
        let buffer = run.old in let s = scratch.old in
        Promise (verdict mask T row (length s)) (given_up (weight_by mask) k T row) k mask T row buffer s result run.new scratch.new }
{
    let _ = bytes(table.marks);
    last_run_rules::check(mask, table, row, scratch.len())?;
    folding::fold_rows(
        offset,
        mask,
        table.rows,
        table.events,
        table.start,
        table.cells,
        table.marks,
        scratch,
    );
    let n = table.rows as u16;
    let events = table.events as u16;
    let told = losses::tell(n, events, table.cells, scratch, row as u16, run);
    scratch::clear(scratch, 0, pairs::needed(n));
    told
}
