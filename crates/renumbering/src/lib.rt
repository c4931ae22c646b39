#![tactic(auto)]
// The table that is left when rows fold as the scratch says: its rows are numbered in the order in which they are met, and it is written out.
ghost use Rattle.std.specs.Prelude.{◌≡◌, [], ◌∷◌, ℕ, ◌+◌, ◌*◌, ◌≤◌, ◌<◌, eqb, length};
ghost use Rattle.tables.specs.Table.{Valid, mark_byte_count, pack};
ghost use Rattle.tables.specs.Lists.{tabulate, sift, over};
ghost use Rattle.rules.specs.Rules.{table_of};
ghost use Rattle.renumbering.specs.Renumber.{line, left, Numbered, new_rows, new_cells, new_marks, NewScratch};
ghost use Rattle.renumbering.specs.Line.{fold_row, line_in, next, Lined, Frame, Targets, target_of_new, mark_of_new};

// The row into which row q folds; a cell that is no row stands for row 0.
fn fold_of(scratch: &[u16], n: usize, q: usize) -> usize
    requires { (n ≤ 1024) × (q < n) × (4 * n ≤ length scratch.now) }
    ensures { (result ≡ fold_row n scratch.now q) × (result < n) }
{
    let x = scratch[2 * n + q] as usize;
    if x < n { x } else { 0 }
}

// Puts row x behind the `count` rows in line and gives it a number, unless it has one; answers how many rows stand in line then.
fn join(scratch: &mut [u16], n: usize, count: usize, x: usize) -> usize
    requires { (n ≤ 1024) × (count ≤ n) × (x < n) × Lined n (line_in n scratch.old count) scratch.old }
    ensures { let s = scratch.old in let l = sift eqb (line_in n s count) (x ∷ []) in
        (result ≡ length l) × Lined n l scratch.new × Frame n (length l) s scratch.new }
{
    if scratch[3 * n + x] != 0 {
        return count;
    }
    scratch[n + count] = x as u16;
    scratch[3 * n + x] = (count + 1) as u16;
    count + 1
}

// Lines up the rows into which the targets of a row fold, behind those that are in line.
fn meet(cells: &[u16], n: usize, m: usize, scratch: &mut [u16], row: usize, count: usize) -> usize
    requires { Targets n m cells.now × (count ≤ n) × (row < n) × Lined n (line_in n scratch.old count) scratch.old }
    ensures { let s = scratch.old in let l = sift eqb (line_in n s count) (next cells.now s n m row) in
        (result ≡ length l) × Lined n l scratch.new × Frame n (length l) s scratch.new }
{
    let mut count = count;
    for a in 0..m {
        let x = fold_of(scratch, n, cells[row * m + a] as usize);
        count = join(scratch, n, count, x);
    }
    count
}

// Goes through the rows in line, of which the first is there: all rows that are met come in behind it, breadth first and lower events first.
fn go_through(
    n: usize,
    m: usize,
    start: usize,
    cells: &[u16],
    marks: &[u8],
    scratch: &mut [u16],
) -> usize
    requires { Valid (table_of n m start cells.now marks.now) × Lined n (fold_row n scratch.old start ∷ []) scratch.old }
    ensures { let T = table_of n m start cells.now marks.now in let s = scratch.old in
        (result ≡ length (line T s)) × Numbered T s scratch.new }
{
    let mut count = 1;
    let mut i = 0;
    // No range: the line grows while it is gone through.
    while i < count {
        let row = scratch[n + i] as usize;
        count = meet(cells, n, m, scratch, row, count);
        i += 1;
    }
    count
}

// Lines up the row into which the start folds, and behind it all that are met from there. At first no row has a number.
fn line_up(
    n: usize,
    m: usize,
    start: usize,
    cells: &[u16],
    marks: &[u8],
    scratch: &mut [u16],
) -> usize
    requires { Valid (table_of n m start cells.now marks.now) × (4 * n ≤ length scratch.old) }
    ensures { let T = table_of n m start cells.now marks.now in let s = scratch.old in
        (result ≡ length (line T s)) × Numbered T s scratch.new }
{
    scratch::clear(scratch, 3 * n, 4 * n);
    let first = fold_of(scratch, n, start);
    join(scratch, n, 0, first);
    go_through(n, m, start, cells, marks, scratch)
}

// Target a of new row i: the new number of the row into which the given target folds.
fn new_target(
    cells: &[u16],
    n: usize,
    m: usize,
    scratch: &[u16],
    count: usize,
    i: usize,
    a: usize,
) -> u16
    requires { Targets n m cells.now × Lined n (line_in n scratch.now count) scratch.now × (count ≤ n) × (i < count) × (a < m) }
    ensures { result ≡ target_of_new cells.now n m scratch.now (i * m + a) }
{
    let row = scratch[n + i] as usize;
    let x = fold_of(scratch, n, cells[row * m + a] as usize);
    scratch[3 * n + x].saturating_sub(1)
}

// Writes the targets of the `count` new rows.
fn write_cells(cells: &[u16], n: usize, m: usize, scratch: &[u16], count: usize, out: &mut [u16])
    requires { Targets n m cells.now × Lined n (line_in n scratch.now count) scratch.now × (count ≤ n) × (count * m ≤ length out.old) }
    ensures { out.new ≡ over out.old 0 (tabulate (count * m) (target_of_new cells.now n m scratch.now)) }
{
    for i in 0..count {
        for a in 0..m {
            out[i * m + a] = new_target(cells, n, m, scratch, count, i, a);
        }
    }
}

// The mark of new row i: that of the given row in line; none beyond the line.
fn new_mark(marks: &[u8], n: usize, scratch: &[u16], count: usize, i: usize) -> u8
    requires { (n + count ≤ length scratch.now) × (n ≤ 1024) }
    ensures { result ≡ mark_of_new marks.now n scratch.now count i }
{
    if i < count {
        marks::mark(marks, scratch[n + i] as usize)
    } else {
        0
    }
}

// Writes the marks of the new rows, and clears the spare bits of the last byte.
fn write_marks(marks: &[u8], n: usize, scratch: &[u16], count: usize, out: &mut [u8])
    requires { (count ≤ n) × (n ≤ 1024) × (n + count ≤ length scratch.now) × (mark_byte_count count ≤ length out.old) }
    ensures { out.new ≡ over out.old 0 (pack (tabulate count (mark_of_new marks.now n scratch.now count))) }
{
    for i in 0..8 * marks::mark_bytes(count) {
        marks::put_mark(out, i, new_mark(marks, n, scratch, count, i));
    }
}

// The same where there is room: lines up the rows, and writes their targets and marks.
fn renumber_within(
    n: usize,
    m: usize,
    start: usize,
    cells: &[u16],
    marks: &[u8],
    scratch: &mut [u16],
    newcells: &mut [u16],
    newmarks: &mut [u8],
) -> usize
    requires valid { Valid (table_of n m start cells.now marks.now) }
    requires n_in_bounds { (4 * n ≤ length scratch.old) × (n * m ≤ length newcells.old) × (mark_byte_count n ≤ length newmarks.old) }
    ensures { let T = table_of n m start cells.now marks.now in let s = scratch.old in
        let U = left T s in
        (result ≡ U.rows)
        × Numbered T s scratch.new
        × (newcells.new ≡ over newcells.old 0 U.cells)
        × (newmarks.new ≡ over newmarks.old 0 U.marks) }
{
    let lined = line_up(n, m, start, cells, marks, scratch);
    write_cells(cells, n, m, scratch, lined, newcells);
    write_marks(marks, n, scratch, lined, newmarks);
    lined
}

// Numbers and writes the table that is left when rows fold as the scratch says, and answers how many rows it has; where there is no room
// for it, or the table breaks a rule, nothing is written and the answer is 0.
pub fn renumber(
    rows: usize,
    events: usize,
    start: usize,
    cells: &[u16],
    marks: &[u8],
    scratch: &mut [u16],
    newcells: &mut [u16],
    newmarks: &mut [u8],
) -> usize
    ensures { let T = table_of rows events start cells.now marks.now in let s = scratch.old in
        let room = newcells.old in let bytes = newmarks.old in
        (result ≡ new_rows T s room bytes)
        × NewScratch T s room bytes scratch.new
        × (newcells.new ≡ new_cells T s room bytes)
        × (newmarks.new ≡ new_marks T s room bytes) }
{
    if !scratch::valid(rows, events, start, cells, marks) {
        return 0;
    }
    if scratch.len() < 4 * rows {
        return 0;
    }
    if newcells.len() < rows * events {
        return 0;
    }
    if newmarks.len() < marks::mark_bytes(rows) {
        return 0;
    }
    renumber_within(
        rows, events, start, cells, marks, scratch, newcells, newmarks,
    )
}
