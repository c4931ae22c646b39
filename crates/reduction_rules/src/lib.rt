#![tactic(auto)]
// What is judged of a table, a mask and the lent buffers before a table is reduced, on the scratch of either way; and the answer that it leads to.
ghost use Rattle.std.specs.Prelude.{◌≡◌};
ghost use Rattle.rules.specs.Rules.{lent, judged};
ghost use Rattle.ways.specs.Ways.{need_of};
ghost use Rattle.reduction_rules.specs.Checks.{room_checks, verdict};

use rules::{Refusal, Rule, Table};
use ways::Way;

// Rule 7: the lent cells, mark bytes, records and scratch cells, for a table of so many rows and events.
fn check_room(
    way: Way,
    rows: u16,
    events: u16,
    cells: usize,
    marks: usize,
    records: usize,
    scratch: usize,
) -> Result<(), Refusal>
    ensures { result ≡ judged (room_checks (need_of way) rows events cells marks records scratch) }
{
    if cells < rows as usize * events as usize {
        return Err(Rule::Room.at(0));
    }
    if marks < marks::mark_bytes(rows as usize) {
        return Err(Rule::Room.at(0));
    }
    if records < rows as usize {
        return Err(Rule::Room.at(0));
    }
    if scratch < ways::needed(way, rows) {
        return Err(Rule::Room.at(0));
    }
    Ok(())
}

// Rules 1 to 6, 16 and 7.
pub fn check(
    way: Way,
    mask: u32,
    table: Table<'_>,
    cellroom: usize,
    markroom: usize,
    recordroom: usize,
    room: usize,
) -> Result<(), Refusal>
    ensures { result ≡ verdict (need_of way) mask (lent table.entry) cellroom markroom recordroom room }
{
    rules::check_masked(rules::winch(), mask, table)?;
    check_room(
        way,
        table.rows as u16,
        table.events as u16,
        cellroom,
        markroom,
        recordroom,
        room,
    )
}
