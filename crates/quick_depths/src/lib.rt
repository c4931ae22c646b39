#![tactic(auto)]
// The leads of the rows of a table, in a few passes where no idle event leads to another row. They stand in region 0 of a scratch of 12 regions.
ghost use Rattle.std.specs.Prelude.{◌≡◌, true, false, List, ℕ, ◌+◌, ◌*◌, ◌≤◌, ◌<◌, length, get_or};
ghost use Rattle.rules.specs.Rules.{table_of};
ghost use Rattle.scratch.specs.Scratch.{lead_in, few_cells, workable_in};
ghost use Rattle.quick_depths.specs.Leads.{Given, Space, Marked, Grows, Begun, Found};
ghost use Rattle.quick_depths.specs.Rounds.{Wide, Seen, ByEvent, Spread, Fine, Dropped, Whole, SetRow, Round};

// The row to which an event leads from row q.
fn target(n: usize, m: usize, cells: &[u16], q: usize, a: usize) -> usize
    requires { Given n m cells.now × (q < n) × (a < m) }
    ensures { (result ≡ get_or cells.now (q * m + a) 0) × (result < n) }
{
    cells[q * m + a] as usize
}

// Whether an event from row p to row r has to be gone through before r: an idle loop has not.
fn is_edge(mask: u32, p: usize, r: usize, a: usize) -> bool
    requires { a < 32 }
{
    p != r || weights::weight(mask, a as u16) == 1
}

// Counts the event as one that leads to row r.
fn tally(mask: u32, n: usize, scratch: &mut [u16], p: usize, r: usize, a: usize)
    requires { (n ≤ 1024) × (12 * n ≤ length scratch.old) × (r < n) × (a < 32) }
    ensures { Marked n scratch.old scratch.new }
{
    if is_edge(mask, p, r, a) {
        scratch[4 * n + r] = scratch[4 * n + r].saturating_add(1);
    }
}

// Meets the target of a reached row and an event: if it has no lead, it is reached now, and waits in the queue.
fn meet(
    mask: u32,
    n: usize,
    m: usize,
    cells: &[u16],
    scratch: &mut [u16],
    p: usize,
    a: usize,
    count: usize,
) -> usize
    requires { Space n m cells.now scratch.old × (p < n) × (a < m) × (count ≤ n) × (0 < lead_in scratch.old p) }
    ensures { Grows mask n m cells.now scratch.old scratch.new × (result ≤ n) }
{
    let r = target(n, m, cells, p, a);
    tally(mask, n, scratch, p, r, a);
    if scratch[r] != 0 || n <= count {
        return count;
    }
    scratch[r] = 1;
    scratch[5 * n + count] = r as u16;
    count + 1
}

// The same for every event of a row.
fn meet_row(
    mask: u32,
    n: usize,
    m: usize,
    cells: &[u16],
    scratch: &mut [u16],
    p: usize,
    count: usize,
) -> usize
    requires { Space n m cells.now scratch.old × (p < n) × (count ≤ n) × (0 < lead_in scratch.old p) }
    ensures { Grows mask n m cells.now scratch.old scratch.new × (result ≤ n) }
{
    let mut to = count;
    for a in 0..m {
        to = meet(mask, n, m, cells, scratch, p, a, to);
    }
    to
}

// The same for a row that waits.
fn meet_next(
    mask: u32,
    n: usize,
    m: usize,
    cells: &[u16],
    scratch: &mut [u16],
    i: usize,
    count: usize,
) -> usize
    requires { Space n m cells.now scratch.old × (i < n) × (count ≤ n) }
    ensures { Grows mask n m cells.now scratch.old scratch.new × (result ≤ n) }
{
    let p = scratch[5 * n + i] as usize;
    if n <= p || scratch[p] == 0 {
        return count;
    }
    meet_row(mask, n, m, cells, scratch, p, count)
}

// Reaches all rows from the first row that waits; answers how many were reached.
fn reach(mask: u32, n: usize, m: usize, cells: &[u16], scratch: &mut [u16]) -> usize
    requires { Space n m cells.now scratch.old }
    ensures { Grows mask n m cells.now scratch.old scratch.new }
{
    let mut count = 1;
    let mut i = 0;
    // Not a range: more rows come to wait in the meantime.
    while i < count {
        count = meet_next(mask, n, m, cells, scratch, i, count);
        i += 1;
    }
    count
}

// An event to row r has been gone through. If it was the last, the row waits in the queue.
fn settle_edge(
    mask: u32,
    n: usize,
    scratch: &mut [u16],
    p: usize,
    r: usize,
    a: usize,
    count: usize,
) -> usize
    requires { (n ≤ 1024) × (12 * n ≤ length scratch.old) × (r < n) × (a < 32) × (count ≤ n) }
    ensures { Marked n scratch.old scratch.new × (result ≤ n) }
{
    if !is_edge(mask, p, r, a) {
        return count;
    }
    let left = scratch[4 * n + r].saturating_sub(1);
    scratch[4 * n + r] = left;
    if left != 0 || n <= count {
        return count;
    }
    scratch[5 * n + count] = r as u16;
    count + 1
}

// Goes through an event of a row.
fn pass(
    mask: u32,
    n: usize,
    m: usize,
    cells: &[u16],
    scratch: &mut [u16],
    p: usize,
    a: usize,
    count: usize,
) -> usize
    requires { Space n m cells.now scratch.old × (p < n) × (a < m) × (count ≤ n) }
    ensures { Grows mask n m cells.now scratch.old scratch.new × (result ≤ n) }
{
    let r = target(n, m, cells, p, a);
    depths::relax(mask, n as u16, m as u16, cells, scratch, p as u16, a as u16);
    settle_edge(mask, n, scratch, p, r, a, count)
}

// The same for every event of a row.
fn pass_row(
    mask: u32,
    n: usize,
    m: usize,
    cells: &[u16],
    scratch: &mut [u16],
    p: usize,
    count: usize,
) -> usize
    requires { Space n m cells.now scratch.old × (p < n) × (count ≤ n) }
    ensures { Grows mask n m cells.now scratch.old scratch.new × (result ≤ n) }
{
    let mut to = count;
    for a in 0..m {
        to = pass(mask, n, m, cells, scratch, p, a, to);
    }
    to
}

// The same for a row that waits.
fn pass_next(
    mask: u32,
    n: usize,
    m: usize,
    cells: &[u16],
    scratch: &mut [u16],
    i: usize,
    count: usize,
) -> usize
    requires { Space n m cells.now scratch.old × (i < n) × (count ≤ n) }
    ensures { Grows mask n m cells.now scratch.old scratch.new × (result ≤ n) }
{
    let p = scratch[5 * n + i] as usize;
    if n <= p {
        return count;
    }
    pass_row(mask, n, m, cells, scratch, p, count)
}

// Goes through rows in an order in which each comes behind all that lead to it; answers how many that were. Those on or behind cycles are left.
fn pass_rows(
    mask: u32,
    n: usize,
    m: usize,
    cells: &[u16],
    scratch: &mut [u16],
    first: usize,
) -> usize
    requires { Space n m cells.now scratch.old × (first ≤ n) }
    ensures { Grows mask n m cells.now scratch.old scratch.new }
{
    let mut count = first;
    let mut i = 0;
    // Not a range: more rows come to wait in the meantime.
    while i < count {
        count = pass_next(mask, n, m, cells, scratch, i, count);
        i += 1;
    }
    count
}

// Before the first event: only the start has a lead, and it waits.
fn begin(n: usize, start: usize, scratch: &mut [u16])
    requires { (0 < n) × (n ≤ 1024) × (12 * n ≤ length scratch.old) × (start < n) }
    ensures { Begun n start scratch.old scratch.new }
{
    scratch::clear(scratch, 0, n);
    scratch::clear(scratch, 4 * n, 8 * n);
    scratch[start] = 1;
    scratch[5 * n] = start as u16;
}

// Marks a row as seen. If it was not, it waits in the second list; answers how many do.
fn see(n: usize, scratch: &mut [u16], r: usize, count: usize) -> usize
    requires { Wide n scratch.old × (r < n) × (count ≤ n) }
    ensures { Seen n (λ q. q ≡ r) scratch.old scratch.new × (result ≤ n) }
{
    if scratch[6 * n + r] != 0 {
        return count;
    }
    scratch[6 * n + r] = 1;
    if n <= count {
        return count;
    }
    scratch[7 * n + count] = r as u16;
    count + 1
}

// Sees the target of a row and an event, if the event has weight w.
fn see_event(
    mask: u32,
    n: usize,
    m: usize,
    cells: &[u16],
    scratch: &mut [u16],
    p: usize,
    w: u16,
    a: usize,
    count: usize,
) -> usize
    requires { Space n m cells.now scratch.old × (p < n) × (a < m) × (count ≤ n) }
    ensures { Seen n (ByEvent mask m cells.now p w) scratch.old scratch.new × (result ≤ n) }
{
    if weights::weight(mask, a as u16) != w {
        return count;
    }
    let r = target(n, m, cells, p, a);
    see(n, scratch, r, count)
}

// The same for every event.
fn see_row(
    mask: u32,
    n: usize,
    m: usize,
    cells: &[u16],
    scratch: &mut [u16],
    p: usize,
    w: u16,
    count: usize,
) -> usize
    requires { Space n m cells.now scratch.old × (p < n) × (count ≤ n) }
    ensures { Seen n (ByEvent mask m cells.now p w) scratch.old scratch.new × (result ≤ n) }
{
    let mut to = count;
    for a in 0..m {
        to = see_event(mask, n, m, cells, scratch, p, w, a, to);
    }
    to
}

// Sees the targets of a row that is left at counted events.
fn see_left(
    mask: u32,
    n: usize,
    m: usize,
    cells: &[u16],
    scratch: &mut [u16],
    q: usize,
    count: usize,
) -> usize
    requires { Space n m cells.now scratch.old × (q < n) × (count ≤ n) }
    ensures { Spread mask n m cells.now scratch.old scratch.new × (result ≤ n) }
{
    if scratch[4 * n + q] == 0 {
        return count;
    }
    see_row(mask, n, m, cells, scratch, q, 1, count)
}

// The same for all rows.
fn see_all(mask: u32, n: usize, m: usize, cells: &[u16], scratch: &mut [u16]) -> usize
    requires { Space n m cells.now scratch.old }
    ensures { Spread mask n m cells.now scratch.old scratch.new × (result ≤ n) }
{
    let mut count = 0;
    for q in 0..n {
        count = see_left(mask, n, m, cells, scratch, q, count);
    }
    count
}

// Sees the targets of a row that waits and is seen at idle events.
fn see_next(
    mask: u32,
    n: usize,
    m: usize,
    cells: &[u16],
    scratch: &mut [u16],
    i: usize,
    count: usize,
) -> usize
    requires { Space n m cells.now scratch.old × (i < n) × (count ≤ n) }
    ensures { Spread mask n m cells.now scratch.old scratch.new × (result ≤ n) }
{
    let p = scratch[7 * n + i] as usize;
    if n <= p || scratch[6 * n + p] == 0 {
        return count;
    }
    see_row(mask, n, m, cells, scratch, p, 0, count)
}

// The same for all that wait.
fn see_more(mask: u32, n: usize, m: usize, cells: &[u16], scratch: &mut [u16], from: usize)
    requires { Space n m cells.now scratch.old × (from ≤ n) }
    ensures { Spread mask n m cells.now scratch.old scratch.new }
{
    let mut count = from;
    let mut i = 0;
    // Not a range: more rows come to wait in the meantime.
    while i < count {
        count = see_next(mask, n, m, cells, scratch, i, count);
        i += 1;
    }
}

// Whether a row, if it is left, is seen and reached.
fn is_fine(n: usize, scratch: &[u16], q: usize) -> bool
    requires { Wide n scratch.now × (q < n) }
    ensures { result ≡ true → Fine n scratch.now q }
{
    scratch[4 * n + q] == 0 || scratch[6 * n + q] != 0 && scratch[q] != 0
}

// Otherwise it is dropped. Answers whether it was.
fn keep_row(n: usize, scratch: &mut [u16], q: usize) -> bool
    requires { Wide n scratch.old × (q < n) }
    ensures { Dropped n scratch.old scratch.new result (Fine n scratch.old q) }
{
    if is_fine(n, scratch, q) {
        return false;
    }
    scratch[4 * n + q] = 0;
    true
}

// The same for all rows.
fn keep_seen(n: usize, scratch: &mut [u16]) -> bool
    requires { Wide n scratch.old }
    ensures { Dropped n scratch.old scratch.new result ((q : ℕ) → q < n → Fine n scratch.old q) }
{
    let mut dropped = false;
    for q in 0..n {
        dropped |= keep_row(n, scratch, q);
    }
    dropped
}

// Drops the rows that are not seen from rows that are left. Answers whether there were any.
fn round(mask: u32, n: usize, m: usize, cells: &[u16], scratch: &mut [u16]) -> bool
    requires { Space n m cells.now scratch.old }
    ensures { Round mask n m cells.now scratch.old scratch.new result }
{
    scratch::clear(scratch, 6 * n, 7 * n);
    let count = see_all(mask, n, m, cells, scratch);
    see_more(mask, n, m, cells, scratch, count);
    keep_seen(n, scratch)
}

// A row that is left is endless.
fn set_row(n: usize, scratch: &mut [u16], q: usize)
    requires { Wide n scratch.old × (q < n) }
    ensures { SetRow n q scratch.old scratch.new }
{
    if scratch[4 * n + q] != 0 {
        scratch[q] = u16::MAX;
    }
}

// The same for all rows.
fn set_endless(mask: u32, n: usize, m: usize, cells: &[u16], scratch: &mut [u16])
    requires { Space n m cells.now scratch.old × Whole mask n m cells.now scratch.old }
    ensures { Grows mask n m cells.now scratch.old scratch.new }
{
    for q in 0..n {
        set_row(n, scratch, q);
    }
}

// Rounds until one drops no row, so that what is left is endless. Each of the others drops one.
fn endless(mask: u32, n: usize, m: usize, cells: &[u16], scratch: &mut [u16])
    requires { Space n m cells.now scratch.old }
    ensures { Grows mask n m cells.now scratch.old scratch.new }
{
    for _ in 0..=n {
        if !round(mask, n, m, cells, scratch) {
            set_endless(mask, n, m, cells, scratch);
            return;
        }
    }
}

// The leads of all rows: those that are reached, gone through in order, endless or not, and then swept until no lead rises.
fn search(mask: u32, n: usize, m: usize, start: usize, cells: &[u16], scratch: &mut [u16])
    requires { Space n m cells.now scratch.old × (start < n) }
    ensures { (marks : List ℕ) → Found mask (table_of n m start cells.now marks) scratch.old scratch.new }
{
    begin(n, start, scratch);
    let reached = reach(mask, n, m, cells, scratch);
    // The start comes first if no event leads to it.
    let count = usize::from(scratch[4 * n + start] == 0);
    let passed = pass_rows(mask, n, m, cells, scratch, count);
    if passed < reached {
        endless(mask, n, m, cells, scratch);
    }
    depths::settle(mask, n as u16, m as u16, cells, scratch);
    scratch::clear(scratch, 4 * n, 8 * n);
}

// The leads of all rows, with the weights of events by a mask. Answers false, and does nothing, unless the table is valid and scratch has 12 cells for each row.
pub fn depths(
    mask: u32,
    rows: usize,
    events: usize,
    start: usize,
    cells: &[u16],
    marks: &[u8],
    scratch: &mut [u16],
) -> bool
    ensures { let T = table_of rows events start cells.now marks.now in
        let s = scratch.old in let t = scratch.new in
        (result ≡ workable_in few_cells T (length s))
        × (result ≡ true → Found mask T s t)
        × (result ≡ false → t ≡ s) }
{
    if !scratch::valid(rows, events, start, cells, marks) || scratch.len() < 12 * rows {
        return false;
    }
    search(mask, rows, events, start, cells, scratch);
    true
}
