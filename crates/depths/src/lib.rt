#![tactic(auto)]
// The depths of the rows of a table: the longest runs from the start, kept in scratch as leads.
ghost use Rattle.std.specs.Prelude.{◌≡◌, ◌<◌, length};
ghost use Rattle.rules.specs.Rules.{table_of};
ghost use Rattle.pairs.specs.Pairs.{workable};
ghost use Rattle.depths.specs.Depths.{plumbed};
ghost use Rattle.depths.specs.Steps.{further, Workspace, Risen, Raised, Stepped, Quiet, QuietRow, QuietRows, Settled, Searched};

// The lead of a row to which an event leads from a row of the given lead. Above the number of rows it is endless.
#[tactic(auto, unfolding(crate::specs::Steps::further))]
fn longer(rows: u16, lead: u16, weight: u16) -> u16
    ensures { result ≡ further rows lead weight }
{
    // A sum that saturates is endless either way.
    let next = lead.saturating_add(weight);
    if rows < next { u16::MAX } else { next }
}

// Raises a cell to x where it is lower, and answers whether it did. Beyond the last it does nothing.
fn raise(cells: &mut [u16], at: usize, x: u16) -> bool
    ensures { Raised at x cells.old cells.new result }
{
    if cells.len() <= at || x <= cells[at] {
        return false;
    }
    cells[at] = x;
    true
}

// Raises the lead of the target of a row and an event, where a run through them is longer. Answers whether it did. Scratch begins with the leads, here and below.
pub fn relax(
    mask: u32,
    rows: u16,
    events: u16,
    cells: &[u16],
    scratch: &mut [u16],
    row: u16,
    event: u16,
) -> bool
    ensures { let c = cells.now in let s = scratch.old in let t = scratch.new in
        Risen s t result
        × (Workspace rows events c s → row < rows → event < events → Stepped mask rows events c s t result (λ T. Quiet mask T s row event)) }
{
    let lead = scratch::cell(scratch, row as usize);
    if lead == 0 {
        return false;
    }
    let target = scratch::target(cells, events, row, event);
    let next = longer(rows, lead, weights::weight(mask, event));
    raise(scratch, target as usize, next)
}

// The same for every event of a row.
fn sweep_row(
    mask: u32,
    rows: u16,
    events: u16,
    cells: &[u16],
    scratch: &mut [u16],
    row: u16,
) -> bool
    ensures { let c = cells.now in let s = scratch.old in let t = scratch.new in
        Risen s t result
        × (Workspace rows events c s → row < rows → Stepped mask rows events c s t result (λ T. QuietRow mask T s row)) }
{
    let mut changed = false;
    for event in 0..events {
        changed |= relax(mask, rows, events, cells, scratch, row, event);
    }
    changed
}

// The same for every row.
fn sweep(mask: u32, rows: u16, events: u16, cells: &[u16], scratch: &mut [u16]) -> bool
    ensures { let c = cells.now in let s = scratch.old in let t = scratch.new in
        Risen s t result
        × (Workspace rows events c s → Stepped mask rows events c s t result (λ T. QuietRows mask T s)) }
{
    let mut changed = false;
    for row in 0..rows {
        changed |= sweep_row(mask, rows, events, cells, scratch, row);
    }
    changed
}

// Sweeps until no lead rises.
pub fn settle(mask: u32, rows: u16, events: u16, cells: &[u16], scratch: &mut [u16])
    ensures { let c = cells.now in let s = scratch.old in
        Workspace rows events c s → Settled mask rows events c s scratch.new }
{
    let mut again = true;
    while again {
        again = sweep(mask, rows, events, cells, scratch);
    }
}

// The leads of all rows. At first only the start has one, by the empty run.
fn search(mask: u32, rows: u16, events: u16, start: u16, cells: &[u16], scratch: &mut [u16])
    requires { Workspace rows events cells.now scratch.old × (start < rows) }
    ensures { Searched mask rows events start cells.now scratch.old scratch.new }
{
    scratch::clear(scratch, 0, rows as usize);
    scratch::put(scratch, start as usize, 1);
    settle(mask, rows, events, cells, scratch);
}

// The leads of all rows, with the weights of events by a mask. Answers false, and does nothing, unless the table is valid and scratch has room.
pub fn depths(
    mask: u32,
    rows: usize,
    events: usize,
    start: usize,
    cells: &[u16],
    marks: &[u8],
    scratch: &mut [u16],
) -> bool
    ensures { let T = table_of rows events start cells.now marks.now in let s = scratch.old in
        (result ≡ workable T (length s))
        × (scratch.new ≡ plumbed mask T s) }
{
    if !pairs::workable(rows, events, start, cells, marks, scratch.len()) {
        return false;
    }
    let at = pairs::pair_cells(rows as u16);
    search(
        mask,
        rows as u16,
        events as u16,
        start as u16,
        cells,
        &mut scratch[at..],
    );
    true
}
