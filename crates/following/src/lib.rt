#![tactic(auto)]
// A follower's moves: what an event makes of its row and its count, by a table and a mask that says which events count.
ghost use Rattle.std.specs.Prelude.{◌≡◌, ◌+◌, ◌*◌, ◌≤◌, min, length};
ghost use Rattle.rules.specs.Rules.{winch, judged, shape_checks, lent};
ghost use Rattle.following.specs.Moves.{cell_checks, stays, advanced_by, advanced};

use rules::{Refusal, Rule, Table};

// Where a follower stands, and how many counted events it has taken.
#[derive(Clone, Copy)]
pub struct Follower {
    pub row: u16,
    pub count: u16,
}

// The two numbers of a follower after an event, and what was said of it. Where it is refused they are as they were: that is why the numbers stand beside the
// verdict, and not in it.
#[derive(Clone, Copy)]
pub struct Next {
    pub row: u16,
    pub count: u16,
    pub verdict: Result<(), Refusal>,
}

// Rules 1 to 4, with the limits of the winch.
pub fn checked(table: Table<'_>) -> Result<(), Refusal>
    ensures { result ≡ judged (shape_checks winch (lent table.entry)) }
{
    rules::check_shape(rules::winch(), table)
}

// The follower after an event of this weight that leads to `target`. The count stays at 65,535 once there.
fn taken(f: Follower, weight: u16, target: u16) -> Follower
    ensures { (result.row ≡ target) × (result.count ≡ min 65535 (f.count + weight)) }
{
    Follower {
        row: target,
        count: f.count.saturating_add(weight),
    }
}

// A refused event: the two numbers as they were.
fn refused(row: u16, count: u16, refusal: Refusal) -> Next
    ensures { result ≡ stays row count refusal }
{
    Next {
        row,
        count,
        verdict: Err(refusal),
    }
}

// One event on a table whose counts and lengths are right: rules 4, 16, 11 and 5.
fn advance_within(mask: u32, table: Table<'_>, row: u16, count: u16, event: usize) -> Next
    requires { (table.events ≤ 32) × (length table.cells.now ≡ table.rows * table.events) }
    ensures { let T = lent table.entry in
        result ≡ advanced_by (judged (cell_checks mask T row event)) mask T row count event }
{
    let at = row as usize;
    if table.rows <= at {
        return refused(row, count, Rule::Row.at(0));
    }
    if weights::spare_bit(mask, table.events) {
        return refused(row, count, Rule::Mask.at(0));
    }
    if table.events <= event {
        return refused(row, count, Rule::Event.at(0));
    }
    let place = at * table.events + event;
    let target = table.cells[place];
    if table.rows <= target as usize {
        return refused(row, count, Rule::Target.at(place));
    }
    let weight = weights::weight(mask, event as u16);
    let to = taken(Follower { row, count }, weight, target);
    Next {
        row: to.row,
        count: to.count,
        verdict: Ok(()),
    }
}

// What one event makes of the two numbers of a follower; the mask says which events count.
pub fn advance(mask: u32, table: Table<'_>, row: u16, count: u16, event: usize) -> Next
    ensures { result ≡ advanced mask (lent table.entry) row count event }
{
    match checked(table) {
        Err(refusal) => refused(row, count, refusal),
        Ok(()) => advance_within(mask, table, row, count, event),
    }
}
