#![tactic(auto)]
// The rules by which a given table is refused, in the order in which calls check them.
ghost use Rattle.std.specs.Prelude.{◌≡◌, false, [], ◌∷◌, ◌≤◌};
ghost use Rattle.rules.specs.Rules.{number_of, refusal, winch as winch_limits, judged, mask_rule, shape_checks, content_checks, table_checks, masked_checks, lent, first_outside_at, outside};

// The rules by which a call refuses what it is given, each with its number.
#[derive(Clone, Copy)]
pub enum Rule {
    // The rows are 0 or above the limit.
    Rows = 1,
    // The events are 0 or above the limit.
    Events = 2,
    // The given cells or mark bytes are not the number required.
    Lengths = 3,
    // The start, or a follower's row, is no row.
    Row = 4,
    // A target is no row; the place is its cell.
    Target = 5,
    // A spare mark bit is set.
    SpareMark = 6,
    // A lent buffer is shorter than named.
    Room = 7,
    // An image ends early; the place is its length.
    Short = 8,
    // A target count is no multiple of the rows, or a start count not 1.
    Count = 9,
    // Bytes follow the last section.
    Trailing = 10,
    // A follower's event is not in its table.
    Event = 11,
    // A desk program's table has too many rows.
    Large = 12,
    // The list of a sheet is shorter than named.
    List = 13,
    // A step is too far for a signed byte; the place is its cell.
    Step = 14,
    // A pack has no tables, or too many.
    Pack = 15,
    // A mask bit at or above the event count is set.
    Mask = 16,
    // The seed of a load is 0.
    Seed = 17,
    // There is no room for a run.
    Run = 18,
    // Two tables have not the same events.
    Unlike = 19,
}

// The rule that is broken, and its place: 0 where the rule names none.
#[derive(Clone, Copy)]
pub struct Refusal {
    pub rule: Rule,
    pub place: usize,
}

impl Rule {
    // The refusal by this rule, at a place.
    pub fn at(self, place: usize) -> Refusal
        ensures { result ≡ refusal self place }
    {
        Refusal { rule: self, place }
    }

    // The rule's number.
    pub fn number(self) -> usize
        ensures { result ≡ number_of self }
    {
        self as usize
    }
}

// How many rows and events a table may have.
#[derive(Clone, Copy)]
pub struct Limits {
    pub rows: u16,
    pub events: u16,
}

// A table as it is lent to a call: its counts and its start, a target in each cell, row by row, and the packed marks.
#[derive(Clone, Copy)]
pub struct Table<'a> {
    pub rows: usize,
    pub events: usize,
    pub start: usize,
    pub cells: &'a [u16],
    pub marks: &'a [u8],
}

// The limits of the winch.
pub fn winch() -> Limits
    ensures { result ≡ winch_limits }
{
    Limits {
        rows: 1024,
        events: 32,
    }
}

// A count that is 0 or above its limit.
pub fn beyond(most: u16, n: usize) -> bool
    ensures { (result ≡ outside most n) × (result ≡ false → n ≤ 65535) }
{
    if n == 0 {
        return true;
    }
    (most as usize) < n
}

// Rules 1 to 4: the counts, the lengths of the slices, the start.
pub fn check_shape(limits: Limits, table: Table<'_>) -> Result<(), Refusal>
    ensures { result ≡ judged (shape_checks limits (lent table.entry)) }
{
    if beyond(limits.rows, table.rows) {
        return Err(Rule::Rows.at(0));
    }
    if beyond(limits.events, table.events) {
        return Err(Rule::Events.at(0));
    }
    if table.cells.len() != table.rows * table.events {
        return Err(Rule::Lengths.at(0));
    }
    if table.marks.len() != marks::mark_bytes(table.rows) {
        return Err(Rule::Lengths.at(0));
    }
    if table.rows <= table.start {
        return Err(Rule::Row.at(0));
    }
    Ok(())
}

// The place of the first cell that is no row; the number of cells if all are.
fn first_outside(cells: &[u16], rows: usize) -> usize
    ensures { result ≡ first_outside_at rows cells.now }
{
    for (i, cell) in cells.iter().enumerate() {
        if rows <= *cell as usize {
            return i;
        }
    }
    cells.len()
}

// Rules 5 and 6: the targets, and the spare bits of the last mark byte.
fn check_contents(rows: usize, cells: &[u16], marks: &[u8]) -> Result<(), Refusal>
    ensures { result ≡ judged (content_checks rows cells.now marks.now) }
{
    let place = first_outside(cells, rows);
    if place < cells.len() {
        return Err(Rule::Target.at(place));
    }
    let last = rows / 8;
    if last < marks.len() && marks::spare_set(rows, marks[last]) {
        return Err(Rule::SpareMark.at(0));
    }
    Ok(())
}

// Rules 1 to 6.
pub fn check_table(limits: Limits, table: Table<'_>) -> Result<(), Refusal>
    ensures { result ≡ judged (table_checks limits (lent table.entry)) }
{
    check_shape(limits, table)?;
    check_contents(table.rows, table.cells, table.marks)
}

// Rule 16: the mask has no bit that belongs to no event.
fn check_mask(mask: u32, events: usize) -> Result<(), Refusal>
    ensures { result ≡ judged (mask_rule mask events ∷ []) }
{
    if weights::spare_bit(mask, events) {
        return Err(Rule::Mask.at(0));
    }
    Ok(())
}

// Rules 1 to 6, then 16: a table, and which of its events count.
pub fn check_masked(limits: Limits, mask: u32, table: Table<'_>) -> Result<(), Refusal>
    ensures { result ≡ judged (masked_checks limits mask (lent table.entry)) }
{
    check_table(limits, table)?;
    check_mask(mask, table.events)
}
