#![tactic(auto)]
// A stated load for the bench: the table that is drawn from a seed by Marsaglia's xorshift.
ghost use Rattle.std.specs.Prelude.{◌≡◌, cond, ◌*◌, ◌%◌, ◌≤◌, ◌<◌, ltb, length};
ghost use Rattle.xorshift.specs.Xorshift.{state as state_after, draw as draw_of};
ghost use Rattle.tables.specs.Lists.{tabulate, over};
ghost use Rattle.tables.specs.Table.{mark_byte_count, pack};
ghost use Rattle.load.specs.Load.{target_by, load_cells, load, verdict, Promise};

use rules::{Refusal, Rule};

// A target of a row, by a draw: behind it in the first quarter of the rows, any row elsewhere.
fn target(rows: usize, row: usize, draw: u32) -> u16
    requires { (row < rows) × (rows ≤ 1024) }
    ensures { result ≡ target_by rows row draw }
{
    let d = draw as usize;
    if row < rows / 4 {
        return (row + 1 + d % (rows - row - 1)) as u16;
    }
    (d % rows) as u16
}

// Draws the targets, and answers the state after them.
fn draw_cells(seed: u32, rows: usize, events: usize, cells: &mut [u16]) -> u32
    requires { (rows ≤ 1024) × (1 ≤ events) × (events ≤ 32) × (rows * events ≤ length cells.old) }
    ensures { (result ≡ state_after seed (rows * events)) × (cells.new ≡ over cells.old 0 (load_cells seed rows events)) }
{
    let count = rows * events;
    let mut state = seed;
    for c in 0..count {
        let draw = xorshift::step(state);
        cells[c] = target(rows, c / events, draw);
        state = draw;
    }
    state
}

// The mark that a draw gives row i; none beyond the rows.
fn mark(rows: usize, i: usize, draw: u32) -> u8
    ensures { result ≡ cond (ltb i rows) (draw % 2) 0 }
{
    if i < rows {
        return (draw % 2) as u8;
    }
    0
}

// Draws the marks. It steps on over the spare bits of the last byte, which are cleared: nobody sees those states.
fn draw_marks(seed: u32, rows: usize, marks: &mut [u8])
    requires { (rows ≤ 1024) × (mark_byte_count rows ≤ length marks.old) }
    ensures { marks.new ≡ over marks.old 0 (pack (tabulate rows (λ i. draw_of seed i % 2))) }
{
    let bits = 8 * marks::mark_bytes(rows);
    let mut state = seed;
    for i in 0..bits {
        state = xorshift::step(state);
        marks::put_mark(marks, i, mark(rows, i, state));
    }
}

// Rules 1, 2 and 17, and 7 for so many lent cells and mark bytes.
#[tactic(auto, unfolding(crate::specs::Load::verdict))]
fn check(seed: u32, rows: usize, events: usize, cells: usize, marks: usize) -> Result<(), Refusal>
    ensures { result ≡ verdict seed rows events cells marks }
{
    let limits = rules::winch();
    if rules::beyond(limits.rows, rows) {
        return Err(Rule::Rows.at(0));
    }
    if rules::beyond(limits.events, events) {
        return Err(Rule::Events.at(0));
    }
    if seed == 0 {
        return Err(Rule::Seed.at(0));
    }
    if cells < rows * events {
        return Err(Rule::Room.at(0));
    }
    if marks < marks::mark_bytes(rows) {
        return Err(Rule::Room.at(0));
    }
    Ok(())
}

// Draws the table of a nonzero seed into lent cells and mark bytes; its start is 0.
pub fn generate(
    seed: u32,
    rows: usize,
    events: usize,
    cells: &mut [u16],
    marks: &mut [u8],
) -> Result<(), Refusal>
    ensures { let c = cells.old in let m = marks.old in
        Promise (verdict seed rows events (length c) (length m)) (load seed rows events) c m result cells.new marks.new }
{
    check(seed, rows, events, cells.len(), marks.len())?;
    let state = draw_cells(seed, rows, events, cells);
    draw_marks(state, rows, marks);
    Ok(())
}
