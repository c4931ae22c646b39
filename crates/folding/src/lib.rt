#![tactic(auto)]
// The rows of a table into which its rows fold, found in the lent scratch from the distances and the depths.
ghost use Rattle.std.specs.Prelude.{◌≡◌, length};
ghost use Rattle.rules.specs.Rules.{table_of, offset_of};
ghost use Rattle.pairs.specs.Pairs.{workable};
ghost use Rattle.folding.specs.Folding.{folded_in};

mod folds;

// The row into which each row folds, with the weights of events by a mask. Answers false, and does nothing, unless the table is valid and scratch has room.
pub fn fold_rows(
    offset: Option<u16>,
    mask: u32,
    rows: usize,
    events: usize,
    start: usize,
    cells: &[u16],
    marks: &[u8],
    scratch: &mut [u16],
) -> bool
    ensures { let T = table_of rows events start cells.now marks.now in let s = scratch.old in
        (result ≡ workable T (length s))
        × (scratch.new ≡ folded_in mask (offset_of offset) T s) }
{
    if !lengths::find_lengths(mask, rows, events, start, cells, marks, scratch) {
        return false;
    }
    let n = rows as u16;
    folds::fold_all(offset, scratch, n);
    scratch::clear(scratch, pairs::queue_at(n), pairs::folds_at(n));
    true
}
