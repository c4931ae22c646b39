#![tactic(auto)]
// The distance of each pair of rows: the least length from which on no run tells the two apart. They are found level by level, in lent scratch.
ghost use Rattle.std.specs.Prelude.{◌≡◌, false, ℕ, ◌+◌, ◌-◌, ◌*◌, ◌≤◌, ◌<◌, leb, length, get_or};
ghost use Rattle.tables.specs.Lists.{over};
ghost use Rattle.rules.specs.Rules.{table_of};
ghost use Rattle.row_starts.specs.RowStarts.{starts_of_rows};
ghost use Rattle.tables.specs.Table.{weight_by};
ghost use Rattle.pairs.specs.Pairs.{pair_at, workable};
ghost use Rattle.scratch.specs.Tests.{Tested};
ghost use Rattle.distances.specs.Distances.{distance_cells, measured};
ghost use Rattle.scratch.specs.Scratch.{machine_by};
ghost use Rattle.distances.specs.Search.{events_by, Fits, Given, Begun, Visited, RowSwept, Swept, Settled, Ready, Risen, Lowered};

// Whether the targets of rows q and p at an event have a cell that is small enough for the level.
fn event_fits(
    mask: u32,
    events: u16,
    cells: &[u16],
    starts: &[u32],
    scratch: &[u16],
    level: u16,
    q: u16,
    p: u16,
    event: u16,
) -> bool
    requires { starts.now ≡ starts_of_rows }
    ensures { result ≡ leb (pair_at scratch.now (get_or cells.now (q * events + event) 0) (get_or cells.now (p * events + event) 0)) (level - weight_by mask event) }
{
    let i = scratch::target(cells, events, q, event);
    let j = scratch::target(cells, events, p, event);
    pairs::pair(starts, scratch, i, j) <= level.saturating_sub(weights::weight(mask, event))
}

// Whether the level fits rows q and p.
fn pair_fits(
    mask: u32,
    rows: u16,
    events: u16,
    cells: &[u16],
    marks: &[u8],
    starts: &[u32],
    scratch: &[u16],
    level: u16,
    q: u16,
    p: u16,
) -> bool
    requires { starts.now ≡ starts_of_rows }
    ensures { Tested result (Fits (events_by mask events) (machine_by rows events cells.now marks.now) (pair_at scratch.now) level q p) }
{
    if level == 0 && marks::mark(marks, q as usize) != marks::mark(marks, p as usize) {
        return false;
    }
    for event in 0..events {
        if !event_fits(mask, events, cells, starts, scratch, level, q, p, event) {
            return false;
        }
    }
    true
}

// One pair's turn: where it has the level and the level does not fit, its cell becomes 65,535.
fn visit(
    mask: u32,
    rows: u16,
    events: u16,
    cells: &[u16],
    marks: &[u8],
    starts: &[u32],
    scratch: &mut [u16],
    level: u16,
    q: u16,
    p: u16,
) -> bool
    requires starts_value { starts.now ≡ starts_of_rows }
    requires begun { Begun (events_by mask events) (machine_by rows events cells.now marks.now) level scratch.old }
    requires q_lt_rows { (q < rows) × (p < q) }
    ensures { Visited (events_by mask events) (machine_by rows events cells.now marks.now) level q p scratch.old scratch.new result }
{
    let at = pairs::row_start(starts, q) + p as usize;
    if scratch::cell(scratch, at) != level
        || pair_fits(
            mask, rows, events, cells, marks, starts, scratch, level, q, p,
        )
    {
        return false;
    }
    scratch::put(scratch, at, 65535);
    true
}

// A turn of each pair of row q and a lower row.
fn sweep_row(
    mask: u32,
    rows: u16,
    events: u16,
    cells: &[u16],
    marks: &[u8],
    starts: &[u32],
    scratch: &mut [u16],
    level: u16,
    q: u16,
) -> bool
    requires starts_value { starts.now ≡ starts_of_rows }
    requires begun { Begun (events_by mask events) (machine_by rows events cells.now marks.now) level scratch.old }
    requires q_lt_rows { q < rows }
    ensures { RowSwept (events_by mask events) (machine_by rows events cells.now marks.now) level q scratch.old scratch.new result }
{
    let mut changed = false;
    for p in 0..q {
        changed |= visit(
            mask, rows, events, cells, marks, starts, scratch, level, q, p,
        );
    }
    changed
}

// A turn of every pair.
fn sweep(
    mask: u32,
    rows: u16,
    events: u16,
    cells: &[u16],
    marks: &[u8],
    scratch: &mut [u16],
    level: u16,
) -> bool
    requires { Begun (events_by mask events) (machine_by rows events cells.now marks.now) level scratch.old }
    ensures { Swept (events_by mask events) (machine_by rows events cells.now marks.now) level scratch.old scratch.new result }
{
    let starts = row_starts::table();
    let mut changed = false;
    for q in 0..rows {
        changed |= sweep_row(mask, rows, events, cells, marks, &starts, scratch, level, q);
    }
    changed
}

// Sweeps until nothing changes: the pairs that still have the level have it for good.
fn settle(
    mask: u32,
    rows: u16,
    events: u16,
    cells: &[u16],
    marks: &[u8],
    scratch: &mut [u16],
    level: u16,
)
    requires { Begun (events_by mask events) (machine_by rows events cells.now marks.now) level scratch.old }
    ensures { Settled (events_by mask events) (machine_by rows events cells.now marks.now) level scratch.old scratch.new }
{
    while sweep(mask, rows, events, cells, marks, scratch, level) {}
}

// Each of the first cells that is 65,535 becomes the level.
fn lower(scratch: &mut [u16], count: usize, level: u16)
    requires { count ≤ length scratch.old }
    ensures { Lowered count level scratch.old scratch.new }
{
    for cell in &mut scratch[..count] {
        if *cell == 65535 {
            *cell = level;
        }
    }
}

// Settles the next level, and answers whether a pair has it.
fn rise(
    mask: u32,
    rows: u16,
    events: u16,
    cells: &[u16],
    marks: &[u8],
    scratch: &mut [u16],
    level: u16,
) -> bool
    requires { Ready (events_by mask events) (machine_by rows events cells.now marks.now) level scratch.old }
    ensures { Risen (events_by mask events) (machine_by rows events cells.now marks.now) level scratch.old scratch.new result }
{
    let count = pairs::pair_cells(rows);
    lower(scratch, count, level);
    settle(mask, rows, events, cells, marks, scratch, level);
    scratch[..count].contains(&level)
}

// The first level: each pair has it, until it is seen not to fit.
fn begin(mask: u32, rows: u16, events: u16, cells: &[u16], marks: &[u8], scratch: &mut [u16])
    requires { Given (events_by mask events) (machine_by rows events cells.now marks.now) scratch.old }
    ensures { Settled (events_by mask events) (machine_by rows events cells.now marks.now) 0 scratch.old scratch.new }
{
    scratch::clear(scratch, 0, pairs::pair_cells(rows));
    settle(mask, rows, events, cells, marks, scratch, 0);
}

// Level by level, until one is no pair's own: then no higher one is.
fn search(mask: u32, rows: u16, events: u16, cells: &[u16], marks: &[u8], scratch: &mut [u16])
    requires { Given (events_by mask events) (machine_by rows events cells.now marks.now) scratch.old }
    ensures { scratch.new ≡ over scratch.old 0 (distance_cells (weight_by mask) (table_of rows events 0 cells.now marks.now)) }
{
    begin(mask, rows, events, cells, marks, scratch);
    for level in 1..rows {
        if !rise(mask, rows, events, cells, marks, scratch, level) {
            return;
        }
    }
}

// Writes the distances of a table's rows into scratch; false, and scratch is as it was, if the table breaks a rule or scratch is too short.
pub fn distances(
    mask: u32,
    rows: usize,
    events: usize,
    start: usize,
    cells: &[u16],
    marks: &[u8],
    scratch: &mut [u16],
) -> bool
    ensures { let T = table_of rows events start cells.now marks.now in let s = scratch.old in
        (result ≡ workable T (length s))
        × (scratch.new ≡ measured mask T s) }
{
    if !pairs::workable(rows, events, start, cells, marks, scratch.len()) {
        return false;
    }
    search(mask, rows as u16, events as u16, cells, marks, scratch);
    true
}
