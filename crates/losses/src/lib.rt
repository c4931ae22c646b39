#![tactic(auto)]
// What a row gives up, told from a scratch that holds distances, first events, leads and folds.
ghost use Rattle.std.specs.Prelude.{◌≡◌, length};
ghost use Rattle.rules.specs.Rules.{left_by};
ghost use Rattle.pairs.specs.Pairs.{pair_at};
ghost use Rattle.measures.specs.Measures.{measure_in};
ghost use Rattle.walks.specs.Walks.{walked};
ghost use Rattle.last_run_rules.specs.Checks.{run_rule, answer_by};
ghost use Rattle.losses.specs.Losses.{into_at, loss_at};

use last_run_rules::Told;
use rules::{Refusal, Rule};

// The row into which a row folds; the row itself, if it is unreached.
pub fn into(scratch: &[u16], rows: u16, row: u16) -> u16
    ensures { result ≡ into_at rows scratch.now row }
{
    if lengths::lead(scratch, rows, row) == 0 {
        return row;
    }
    scratch::cell(scratch, pairs::folds_at(rows) + row as usize)
}

// The distance of two rows.
pub fn distance(scratch: &[u16], q: u16, p: u16) -> u16
    ensures { result ≡ (measure_in (pair_at scratch.now q p)).distance }
{
    let starts = row_starts::table();
    let said = measures::between(&starts, scratch, q, p);
    said.distance
}

// How many events the run of two rows has: none is written.
fn run_length(rows: u16, events: u16, cells: &[u16], scratch: &[u16], q: u16, p: u16) -> usize
    ensures { result ≡ length (walked cells.now events scratch.now rows q p) }
{
    let mut spare = [0u8; 1];
    walks::walk(rows, events, cells, scratch, q, p, &mut spare)
}

// Answers what a row gives up, and writes the run; rule 18: if there is no room for all of it, nothing is written.
pub fn tell(
    rows: u16,
    events: u16,
    cells: &[u16],
    scratch: &[u16],
    row: u16,
    run: &mut [u8],
) -> Result<Told, Refusal>
    ensures { let g = loss_at rows events cells.now scratch.now row in let room = run.old in
        let v = run_rule (length g.run) (length room) in
        (result ≡ answer_by v g)
        × (run.new ≡ left_by v room g.run) }
{
    let into = into(scratch, rows, row);
    let length = run_length(rows, events, cells, scratch, row, into);
    if run.len() < length {
        return Err(Rule::Run.at(0));
    }
    walks::walk(rows, events, cells, scratch, row, into, run);
    let distance = distance(scratch, row, into) as usize;
    Ok(Told { distance, length })
}
