#![tactic(auto)]
// The row into which each row of a table folds, on the scratch of either way: by pairs of rows, or by levels.
ghost use Rattle.std.specs.Prelude.{◌≤◌};
ghost use Rattle.rules.specs.Rules.{table_of, offset_of};
ghost use Rattle.scratch.specs.Scratch.{scratch_cells};
ghost use Rattle.ways.specs.Ways.{need_of};
ghost use Rattle.either_way.specs.Folding.{Folding};

use ways::Way;

// The folds by pairs of rows, moved to the front.
fn fold_pairs(
    offset: Option<u16>,
    mask: u32,
    rows: usize,
    events: usize,
    start: usize,
    cells: &[u16],
    marks: &[u8],
    scratch: &mut [u16],
)
    ensures { let T = table_of rows events start cells.now marks.now in
        Folding scratch_cells mask (offset_of offset) T scratch.old scratch.new }
{
    if folding::fold_rows(offset, mask, rows, events, start, cells, marks, scratch) {
        let from = pairs::pair_cells(rows as u16);
        scratch.copy_within(from..from + 3 * rows, 0);
    }
}

// The folds by levels, on the first way's scratch: it holds the second's.
fn fold_levels(
    offset: Option<u16>,
    mask: u32,
    rows: usize,
    events: usize,
    start: usize,
    cells: &[u16],
    marks: &[u8],
    scratch: &mut [u16],
)
    requires { 17 ≤ rows }
    ensures { let T = table_of rows events start cells.now marks.now in
        Folding scratch_cells mask (offset_of offset) T scratch.old scratch.new }
{
    if rows <= 1024 && pairs::needed(rows as u16) <= scratch.len() {
        quick_folding::fold_rows(offset, mask, rows, events, start, cells, marks, scratch);
    }
}

// The folds on the first way's scratch, by the quicker of the two.
fn fold_first(
    offset: Option<u16>,
    mask: u32,
    rows: usize,
    events: usize,
    start: usize,
    cells: &[u16],
    marks: &[u8],
    scratch: &mut [u16],
)
    ensures { let T = table_of rows events start cells.now marks.now in
        Folding scratch_cells mask (offset_of offset) T scratch.old scratch.new }
{
    if rows < 17 {
        fold_pairs(offset, mask, rows, events, start, cells, marks, scratch);
    } else {
        fold_levels(offset, mask, rows, events, start, cells, marks, scratch);
    }
}

// The row into which each row folds, with the weights of events by a mask, on the scratch of either way. It does nothing unless the table is valid and scratch has room.
pub fn fold_rows(
    way: Way,
    offset: Option<u16>,
    mask: u32,
    rows: usize,
    events: usize,
    start: usize,
    cells: &[u16],
    marks: &[u8],
    scratch: &mut [u16],
)
    ensures { let T = table_of rows events start cells.now marks.now in
        Folding (need_of way) mask (offset_of offset) T scratch.old scratch.new }
{
    match way {
        Way::First => fold_first(offset, mask, rows, events, start, cells, marks, scratch),
        Way::Second => {
            quick_folding::fold_rows(offset, mask, rows, events, start, cells, marks, scratch);
        }
    }
}
