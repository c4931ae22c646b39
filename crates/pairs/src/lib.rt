#![tactic(auto)]
// The map of scratch for all pairs of rows: a triangle of cells, and three more for each row.
ghost use Rattle.std.specs.Prelude.{◌≡◌};
ghost use Rattle.rules.specs.Rules.{table_of};
ghost use Rattle.pairs.specs.Pairs.{triangle, start_in, pair_from, queue_start, folds_start, needed as cells_needed, workable as is_workable};

// How many cells the pairs of so many rows take; behind them stand the leads.
#[tactic(auto, using(crate::proofs::Triangle::triangle_square))]
pub fn pair_cells(rows: u16) -> usize
    ensures { result ≡ triangle rows }
{
    let n = rows as usize;
    (n * n - n) / 2
}

// The first cell of a row in the triangle of pairs, from a table of row starts. The table has every row that a winch can have; for any other number the rule of the stored one is computed.
#[tactic(auto, using(crate::proofs::RowStarts::start_stored, crate::proofs::RowStarts::start_beyond))]
pub fn row_start(starts: &[u32], row: u16) -> usize
    ensures { result ≡ start_in starts.now row }
{
    match starts.get(row as usize) {
        Some(start) => *start as usize,
        None => pair_cells(row),
    }
}

// Where rows stand in line: in order of depth, then kept.
#[tactic(auto, using(crate::proofs::Triangle::triangle_bound))]
pub fn queue_at(rows: u16) -> usize
    ensures { result ≡ queue_start rows }
{
    pair_cells(rows) + rows as usize
}

// Where the rows stand into which each row folds.
#[tactic(auto, using(crate::proofs::Triangle::triangle_bound))]
pub fn folds_at(rows: u16) -> usize
    ensures { result ≡ folds_start rows }
{
    pair_cells(rows) + 2 * rows as usize
}

// How many cells are lent for all of it.
#[tactic(auto, using(crate::proofs::Triangle::triangle_bound))]
pub fn needed(rows: u16) -> usize
    ensures { result ≡ cells_needed rows }
{
    pair_cells(rows) + 4 * rows as usize
}

// The cell of two rows, one lookup and one sum from a table of row starts; 0 where they are one.
#[tactic(auto, using(crate::proofs::RowStarts::start_bound), unfolding(crate::specs::Pairs::pair_from))]
pub fn pair(starts: &[u32], scratch: &[u16], q: u16, p: u16) -> u16
    ensures { result ≡ pair_from (start_in starts.now) scratch.now q p }
{
    if p < q {
        return scratch::cell(scratch, row_start(starts, q) + p as usize);
    }
    if q < p {
        return scratch::cell(scratch, row_start(starts, p) + q as usize);
    }
    0
}

// Whether a table breaks none of them, and there is room to work on pairs of its rows.
#[tactic(auto, unfolding(scratch::specs::Scratch::workable_in))]
pub fn workable(
    rows: usize,
    events: usize,
    start: usize,
    cells: &[u16],
    marks: &[u8],
    room: usize,
) -> bool
    ensures { result ≡ is_workable (table_of rows events start cells.now marks.now) room }
{
    scratch::valid(rows, events, start, cells, marks) && needed(rows as u16) <= room
}
