#![tactic(auto)]
// The distance of each pair of rows with the first event of its chosen run, or the run's end: from the distances, in rounds over the length of the run in all its events.
ghost use Rattle.std.specs.Prelude.{◌≡◌, ◌+◌, ◌≤◌, ◌<◌, length, MatchOption};
ghost use Rattle.rules.specs.Rules.{table_of};
ghost use Rattle.row_starts.specs.RowStarts.{starts_of_rows};
ghost use Rattle.scratch.specs.Tests.{Tested};
ghost use Rattle.pairs.specs.Pairs.{triangle, pair_at, workable};
ghost use Rattle.measures.specs.Measures.{settled_at};
ghost use Rattle.scratch.specs.Scratch.{machine_by};
ghost use Rattle.distances.specs.Search.{events_by};
ghost use Rattle.first_events.specs.FirstEvents.{told};
ghost use Rattle.first_events.specs.Passes.{Ready, Lowest, Ended, Taken, Settled, Turned, Visited, Swept};
ghost use Rattle.first_events.specs.Rounds.{Given, Distances, Reached, Rounded, Searched};

use chosen::First;

// The passes over all pairs. A round looks at distances up to a number only: no higher one can be settled in it.
#[derive(Clone, Copy)]
pub enum Pass {
    Ends,
    Takes(u16),
    Settles,
}

// The cell of a settled pair.
#[tactic(auto, unfolding(measures::specs::Measures::settled_at))]
fn mixed(distance: u16, number: u16) -> u16
    requires { (distance < 1024) × (number ≤ 32) }
    ensures { result ≡ settled_at distance number }
{
    33 * (distance + 31) + number
}

// The first pass: where two rows are at distance 1 and their marks differ, their run is at its end.
fn ended(
    mask: u32,
    rows: u16,
    events: u16,
    cells: &[u16],
    marks: &[u8],
    scratch: &[u16],
    q: u16,
    p: u16,
    cell: u16,
) -> u16
    requires { cell ≡ pair_at scratch.now q p }
    ensures { Ended (events_by mask events) (machine_by rows events cells.now marks.now) (pair_at scratch.now) q p result }
{
    if cell != 1 || marks::mark(marks, q as usize) == marks::mark(marks, p as usize) {
        return cell;
    }
    mixed(1, 32)
}

// Whether an event leads to a settled pair whose distance is less by the event's weight.
fn ready(
    mask: u32,
    rows: u16,
    events: u16,
    cells: &[u16],
    marks: &[u8],
    starts: &[u32],
    scratch: &[u16],
    distance: u16,
    q: u16,
    p: u16,
    event: u16,
) -> bool
    requires { starts.now ≡ starts_of_rows }
    ensures { Tested result (Ready (events_by mask events) (machine_by rows events cells.now marks.now) (pair_at scratch.now) distance q p event) }
{
    let i = scratch::target(cells, events, q, event);
    let j = scratch::target(cells, events, p, event);
    let led = measures::between(starts, scratch, i, j);
    match led.first {
        First::Unsettled => false,
        First::End | First::Event(_) => {
            led.distance as usize + weights::weight(mask, event) as usize == distance as usize
        }
    }
}

// The lowest event that is ready.
fn first_ready(
    mask: u32,
    rows: u16,
    events: u16,
    cells: &[u16],
    marks: &[u8],
    starts: &[u32],
    scratch: &[u16],
    distance: u16,
    q: u16,
    p: u16,
) -> Option<u16>
    requires { starts.now ≡ starts_of_rows }
    ensures { let L = Lowest (events_by mask events) (machine_by rows events cells.now marks.now) (pair_at scratch.now) distance q p events in
        MatchOption result (L events) (λ event. (event < events) × L event) }
{
    for event in 0..events {
        if ready(
            mask, rows, events, cells, marks, starts, scratch, distance, q, p, event,
        ) {
            return Some(event);
        }
    }
    None
}

// In a round, an unsettled pair takes the lowest event that is ready.
fn taken(
    mask: u32,
    rows: u16,
    events: u16,
    cells: &[u16],
    marks: &[u8],
    starts: &[u32],
    scratch: &[u16],
    most: u16,
    q: u16,
    p: u16,
    cell: u16,
) -> u16
    requires starts_value { starts.now ≡ starts_of_rows }
    requires cell_value { cell ≡ pair_at scratch.now q p }
    requires events_bound { events ≤ 32 }
    ensures { Taken (events_by mask events) (machine_by rows events cells.now marks.now) (pair_at scratch.now) most q p result }
{
    if most < cell {
        return cell;
    }
    match first_ready(
        mask, rows, events, cells, marks, starts, scratch, cell, q, p,
    ) {
        Some(event) => 1024 + event,
        None => cell,
    }
}

// After it, a pair that took an event is settled.
fn settled(
    mask: u32,
    rows: u16,
    events: u16,
    cells: &[u16],
    marks: &[u8],
    starts: &[u32],
    scratch: &[u16],
    q: u16,
    p: u16,
    cell: u16,
) -> u16
    requires starts_value { starts.now ≡ starts_of_rows }
    requires cell_value { cell ≡ pair_at scratch.now q p }
    ensures { Settled (events_by mask events) (machine_by rows events cells.now marks.now) (pair_at scratch.now) q p result }
{
    if !(1024..1056).contains(&cell) {
        return cell;
    }
    let event = cell - 1024;
    let i = scratch::target(cells, events, q, event);
    let j = scratch::target(cells, events, p, event);
    let led = measures::between(starts, scratch, i, j);
    let distance = led.distance as usize + weights::weight(mask, event) as usize;
    if 1024 <= distance {
        return cell;
    }
    mixed(distance as u16, event)
}

// What a pass makes of a pair's cell.
fn turn(
    pass: Pass,
    mask: u32,
    rows: u16,
    events: u16,
    cells: &[u16],
    marks: &[u8],
    starts: &[u32],
    scratch: &[u16],
    q: u16,
    p: u16,
    cell: u16,
) -> u16
    requires starts_value { starts.now ≡ starts_of_rows }
    requires cell_value { cell ≡ pair_at scratch.now q p }
    requires events_bound { events ≤ 32 }
    ensures { Turned pass (events_by mask events) (machine_by rows events cells.now marks.now) (pair_at scratch.now) q p result }
{
    match pass {
        Pass::Ends => ended(mask, rows, events, cells, marks, scratch, q, p, cell),
        Pass::Takes(most) => taken(
            mask, rows, events, cells, marks, starts, scratch, most, q, p, cell,
        ),
        Pass::Settles => settled(
            mask, rows, events, cells, marks, starts, scratch, q, p, cell,
        ),
    }
}

// One pair's turn in a pass; whether its cell changed.
fn visit(
    pass: Pass,
    mask: u32,
    rows: u16,
    events: u16,
    cells: &[u16],
    marks: &[u8],
    starts: &[u32],
    scratch: &mut [u16],
    q: u16,
    p: u16,
) -> bool
    requires starts_value { starts.now ≡ starts_of_rows }
    requires p_lt_q { (p < q) × (events ≤ 32) }
    ensures { Visited pass (events_by mask events) (machine_by rows events cells.now marks.now) q p scratch.old scratch.new result }
{
    let at = pairs::row_start(starts, q) + p as usize;
    let cell = scratch::cell(scratch, at);
    let next = turn(
        pass, mask, rows, events, cells, marks, starts, scratch, q, p, cell,
    );
    if next == cell {
        return false;
    }
    scratch::put(scratch, at, next);
    true
}

// A turn of each pair of row q and a lower row.
fn sweep_row(
    pass: Pass,
    mask: u32,
    rows: u16,
    events: u16,
    cells: &[u16],
    marks: &[u8],
    starts: &[u32],
    scratch: &mut [u16],
    q: u16,
) -> bool
    requires starts_value { starts.now ≡ starts_of_rows }
    requires q_lt_rows { (q < rows) × (events ≤ 32) }
    ensures { Swept pass (events_by mask events) (machine_by rows events cells.now marks.now) (triangle q) (triangle q + q) scratch.old scratch.new result }
{
    let mut changed = false;
    for p in 0..q {
        changed |= visit(
            pass, mask, rows, events, cells, marks, starts, scratch, q, p,
        );
    }
    changed
}

// A turn of every pair.
fn sweep(
    pass: Pass,
    mask: u32,
    rows: u16,
    events: u16,
    cells: &[u16],
    marks: &[u8],
    scratch: &mut [u16],
) -> bool
    requires { events ≤ 32 }
    ensures { Swept pass (events_by mask events) (machine_by rows events cells.now marks.now) 0 (triangle rows) scratch.old scratch.new result }
{
    let starts = row_starts::table();
    let mut changed = false;
    for q in 0..rows {
        changed |= sweep_row(pass, mask, rows, events, cells, marks, &starts, scratch, q);
    }
    changed
}

// A round: unsettled pairs of a distance up to a number take an event, and then are settled. Whether one did.
fn round(
    mask: u32,
    rows: u16,
    events: u16,
    cells: &[u16],
    marks: &[u8],
    scratch: &mut [u16],
    most: u16,
) -> bool
    requires given { Given (events_by mask events) (machine_by rows events cells.now marks.now) scratch.old }
    requires most_bound { most < 1024 }
    ensures { Rounded (events_by mask events) (machine_by rows events cells.now marks.now) most scratch.old scratch.new result }
{
    if sweep(Pass::Takes(most), mask, rows, events, cells, marks, scratch) {
        sweep(Pass::Settles, mask, rows, events, cells, marks, scratch);
        return true;
    }
    false
}

// Rounds over the length of runs, until one changes nothing: no run has more events than rows less two. A run of so many events has a distance of at most one more.
fn rounds(mask: u32, rows: u16, events: u16, cells: &[u16], marks: &[u8], scratch: &mut [u16])
    requires given { Given (events_by mask events) (machine_by rows events cells.now marks.now) scratch.old }
    requires reached { Reached (events_by mask events) (machine_by rows events cells.now marks.now) 0 scratch.old }
    ensures { Searched (events_by mask events) (machine_by rows events cells.now marks.now) scratch.old scratch.new }
{
    for most in 2..rows {
        if !round(mask, rows, events, cells, marks, scratch, most) {
            return;
        }
    }
}

// From the distances to the distances with first events.
fn search(mask: u32, rows: u16, events: u16, cells: &[u16], marks: &[u8], scratch: &mut [u16])
    requires given { Given (events_by mask events) (machine_by rows events cells.now marks.now) scratch.old }
    requires distances { Distances (events_by mask events) (machine_by rows events cells.now marks.now) scratch.old }
    ensures { Searched (events_by mask events) (machine_by rows events cells.now marks.now) scratch.old scratch.new }
{
    sweep(Pass::Ends, mask, rows, events, cells, marks, scratch);
    rounds(mask, rows, events, cells, marks, scratch);
}

// Writes the distances of a table's rows, and how their chosen runs begin, into scratch; false, and scratch is as it was, if the table breaks a rule or scratch is too short.
pub fn find_measures(
    mask: u32,
    rows: usize,
    events: usize,
    start: usize,
    cells: &[u16],
    marks: &[u8],
    scratch: &mut [u16],
) -> bool
    ensures { let T = table_of rows events start cells.now marks.now in let s = scratch.old in
        (result ≡ workable T (length s))
        × (scratch.new ≡ told mask T s) }
{
    if !distances::distances(mask, rows, events, start, cells, marks, scratch) {
        return false;
    }
    search(mask, rows as u16, events as u16, cells, marks, scratch);
    true
}
