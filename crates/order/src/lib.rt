#![tactic(auto)]
// Tables put in order: pairs of rows are met level by level from the starts, until the marks of one differ; then what the pairs of the last level say is told back to those before it.
ghost use Rattle.std.specs.Prelude.{◌≡◌, ℕ, suc, ◌+◌, ◌-◌, ◌*◌, ◌/◌, ◌%◌, ◌≤◌, ◌<◌, length, get_or, set, replicate, MatchOption};
ghost use Rattle.rules.specs.Rules.{lent, left_by};
ghost use Rattle.ordering.specs.Order.{comparison};
ghost use Rattle.ordering.specs.Found.{order_of};
ghost use Rattle.order_rules.specs.Checks.{pair_cells, verdict, answer_by};
ghost use Rattle.order.specs.Cells.{lower_of, met_with, raised, tells, found_by};
ghost use Rattle.order.specs.Search.{graph_by, given_as, Carried, Spreading, Bare, Sought, told_from, Settling, ToldBack, ready_by, Searched};

use ordering::Order;
use rules::{Refusal, Table};

// What a sweep has come upon: no pair that was not met before, such pairs, or one of them whose marks differ.
#[derive(Clone, Copy)]
enum Sweep {
    Nothing,
    Pairs,
    Difference,
}

// The pair of rows i and j is met, if it was not before, and `most`, what the sweep came upon, rises with it.
fn meet(
    rows2: u16,
    marks: &[u8],
    marks2: &[u8],
    scratch: &mut [u16],
    i: u16,
    j: u16,
    level: u16,
    most: Sweep,
) -> Sweep
    requires { level < 4095 }
    ensures { let at = i * rows2 + j in let s = scratch.old in let m = lower_of marks.now marks2.now i j in
        (found_by result ≡ raised (found_by most) m (get_or s at 0)) × (scratch.new ≡ set s at (met_with m (suc level) (get_or s at 0))) }
{
    let at = row_pairs::place(rows2, i, j);
    if scratch::cell(scratch, at) != 0 {
        return most;
    }
    let told = row_pairs::lower(marks, marks2, i, j);
    scratch::put(scratch, at, 4096 * told + level + 1);
    if told != 0 {
        return Sweep::Difference;
    }
    match most {
        Sweep::Nothing => Sweep::Pairs,
        more => more,
    }
}

// The first table's row of pair k.
fn first_of(rows: u16, rows2: u16, k: usize) -> u16
    requires { k < rows * rows2 }
    ensures { result ≡ k / rows2 }
{
    (k / rows2 as usize) as u16
}

// The second table's.
fn second_of(rows: u16, rows2: u16, k: usize) -> u16
    requires { k < rows * rows2 }
    ensures { result ≡ k % rows2 }
{
    (k % rows2 as usize) as u16
}

// All pairs to which an event leads from pair k are met. It stands apart, so that the sweep over all pairs, which comes to few of a level, keeps to registers.
#[inline(never)]
fn spread_pair(
    rows: u16,
    events: u16,
    cells: &[u16],
    marks: &[u8],
    rows2: u16,
    cells2: &[u16],
    marks2: &[u8],
    scratch: &mut [u16],
    k: usize,
    level: u16,
    most: Sweep,
) -> Sweep
    requires given_by { given_as rows events cells.now marks.now rows2 cells2.now marks2.now scratch.old }
    requires k_bound { (k < rows * rows2) × (level < 4095) }
    ensures { Carried (graph_by rows events cells.now marks.now rows2 cells2.now marks2.now) level k scratch.old (found_by most) scratch.new (found_by result) }
{
    let q = first_of(rows, rows2, k);
    let p = second_of(rows, rows2, k);
    let mut found = most;
    for event in 0..events {
        let i = scratch::target(cells, events, q, event);
        let j = scratch::target(cells2, events, p, event);
        found = meet(rows2, marks, marks2, scratch, i, j, level, found);
    }
    found
}

// A sweep over all pairs: from those of a level, the pairs of the next are met.
fn spread(
    rows: u16,
    events: u16,
    cells: &[u16],
    marks: &[u8],
    rows2: u16,
    cells2: &[u16],
    marks2: &[u8],
    scratch: &mut [u16],
    level: u16,
) -> Sweep
    requires given_by { given_as rows events cells.now marks.now rows2 cells2.now marks2.now scratch.old }
    requires level_nonzero { (0 < level) × (level < 4095) }
    ensures { Spreading (graph_by rows events cells.now marks.now rows2 cells2.now marks2.now) level (rows * rows2) 0 scratch.old scratch.new (found_by result) }
{
    let count = row_pairs::needed(rows, rows2);
    let mut most = Sweep::Nothing;
    for k in 0..count {
        if scratch[k] == level {
            most = spread_pair(
                rows, events, cells, marks, rows2, cells2, marks2, scratch, k, level, most,
            );
        }
    }
    most
}

// Meets pairs level by level from the start, whose marks are equal. The level at which marks differ; none if no run tells the tables apart: none of as many events as there are rows, or nothing more is met.
fn meet_pairs(
    rows: u16,
    events: u16,
    cells: &[u16],
    marks: &[u8],
    rows2: u16,
    cells2: &[u16],
    marks2: &[u8],
    scratch: &mut [u16],
    start: usize,
) -> Option<u16>
    requires given_by { given_as rows events cells.now marks.now rows2 cells2.now marks2.now scratch.old }
    requires bare { Bare (graph_by rows events cells.now marks.now rows2 cells2.now marks2.now) start scratch.old }
    requires rows_bound { (rows ≤ 1024) × (rows2 ≤ 1024) }
    ensures { let G = graph_by rows events cells.now marks.now rows2 cells2.now marks2.now in
        MatchOption result
        (Sought G start (rows + rows2) scratch.old scratch.new 0)
        (λ last. (0 < last) × Sought G start (rows + rows2) scratch.old scratch.new last) }
{
    scratch::put(scratch, start, 1);
    for level in 1..rows + rows2 {
        let most = spread(
            rows, events, cells, marks, rows2, cells2, marks2, scratch, level,
        );
        match most {
            Sweep::Nothing => return None,
            Sweep::Pairs => {}
            Sweep::Difference => return Some(level + 1),
        }
    }
    None
}

// What is told of a pair, if it stands at a level; 0 else.
fn told_at(cell: u16, level: u16) -> u16
    ensures { (result ≡ tells level cell) × (result ≤ 15) }
{
    if cell % 4096 == level { cell / 4096 } else { 0 }
}

// What is told by the lowest event that leads from pair k to one of the next level of which anything is told. It stands apart as `spread_pair` does.
#[inline(never)]
fn first_told(
    rows: u16,
    events: u16,
    cells: &[u16],
    marks: &[u8],
    rows2: u16,
    cells2: &[u16],
    marks2: &[u8],
    scratch: &[u16],
    k: usize,
    level: u16,
) -> u16
    requires { (k < rows * rows2) × (level < 4095) }
    ensures { let G = graph_by rows events cells.now marks.now rows2 cells2.now marks2.now in
        (result ≡ told_from G level scratch.now k) × (result ≤ 15) }
{
    let q = first_of(rows, rows2, k);
    let p = second_of(rows, rows2, k);
    for event in 0..events {
        let i = scratch::target(cells, events, q, event);
        let j = scratch::target(cells2, events, p, event);
        let told = told_at(
            scratch::cell(scratch, row_pairs::place(rows2, i, j)),
            level + 1,
        );
        if told != 0 {
            return told;
        }
    }
    0
}

// A sweep over all pairs: those of a level take what those of the next tell them.
fn settle(
    rows: u16,
    events: u16,
    cells: &[u16],
    marks: &[u8],
    rows2: u16,
    cells2: &[u16],
    marks2: &[u8],
    scratch: &mut [u16],
    level: u16,
)
    requires given_by { given_as rows events cells.now marks.now rows2 cells2.now marks2.now scratch.old }
    requires level_nonzero { (0 < level) × (level < 4095) }
    ensures { Settling (graph_by rows events cells.now marks.now rows2 cells2.now marks2.now) level (rows * rows2) scratch.old scratch.new }
{
    let count = row_pairs::needed(rows, rows2);
    for k in 0..count {
        if scratch[k] == level {
            let told = first_told(
                rows, events, cells, marks, rows2, cells2, marks2, scratch, k, level,
            );
            scratch[k] = 4096 * told + level;
        }
    }
}

// What the pairs of the last level say is told back, level by level, to the start.
fn tell_back(
    rows: u16,
    events: u16,
    cells: &[u16],
    marks: &[u8],
    rows2: u16,
    cells2: &[u16],
    marks2: &[u8],
    scratch: &mut [u16],
    last: u16,
)
    requires given_by { given_as rows events cells.now marks.now rows2 cells2.now marks2.now scratch.old }
    requires last_nonzero { (0 < last) × (last < 4095) }
    ensures { ToldBack (graph_by rows events cells.now marks.now rows2 cells2.now marks2.now) (last - 1) scratch.old scratch.new }
{
    for level in (1..last).rev() {
        settle(
            rows, events, cells, marks, rows2, cells2, marks2, scratch, level,
        );
    }
}

// An order from its number.
fn order_of(told: u16) -> Order
    ensures { result ≡ order_of told }
{
    match told {
        0 => Order::Equal,
        1 => Order::First,
        _ => Order::Second,
    }
}

// Which table comes first, found in the cells of their pairs.
fn search(
    rows: u16,
    events: u16,
    start: u16,
    cells: &[u16],
    marks: &[u8],
    rows2: u16,
    start2: u16,
    cells2: &[u16],
    marks2: &[u8],
    scratch: &mut [u16],
) -> Order
    requires { ready_by rows events start cells.now marks.now rows2 start2 cells2.now marks2.now scratch.old }
    ensures { Searched rows events start cells.now marks.now rows2 start2 cells2.now marks2.now scratch.old scratch.new result }
{
    let told = row_pairs::lower(marks, marks2, start, start2);
    if told != 0 {
        return order_of(told);
    }
    scratch::clear(scratch, 0, row_pairs::needed(rows, rows2));
    let at = row_pairs::place(rows2, start, start2);
    let Some(last) = meet_pairs(
        rows, events, cells, marks, rows2, cells2, marks2, scratch, at,
    ) else {
        return Order::Equal;
    };
    tell_back(
        rows, events, cells, marks, rows2, cells2, marks2, scratch, last,
    );
    order_of(scratch::cell(scratch, at) / 4096)
}

// The same marks. Each is a byte: the type of a slice says so to a proof, that of a table does not.
fn bytes(marks: &[u8]) -> &[u8]
    ensures { (result.now ≡ marks.now) × ((i : ℕ) → get_or marks.now i 0 < 256) }
{
    marks
}

// Which of two tables comes first in the order of tables.
pub fn compare(first: Table<'_>, second: Table<'_>, scratch: &mut [u16]) -> Result<Order, Refusal>
    ensures { let T = lent first.entry in let U = lent second.entry in
        let s = scratch.old in let v = verdict T U (length s) in
        (result ≡ answer_by v (comparison T U))
        × (scratch.new ≡ left_by v s (replicate (pair_cells T.rows U.rows) 0)) }
{
    let _ = bytes(first.marks);
    let _ = bytes(second.marks);
    order_rules::check(first, second, scratch.len())?;
    let n = first.rows as u16;
    let m = second.rows as u16;
    let events = first.events as u16;
    let start = first.start as u16;
    let start2 = second.start as u16;
    let order = search(
        n,
        events,
        start,
        first.cells,
        first.marks,
        m,
        start2,
        second.cells,
        second.marks,
        scratch,
    );
    scratch::clear(scratch, 0, row_pairs::needed(n, m));
    Ok(order)
}
