#![tactic(auto)]
// What is judged of a table, a mask, the lent list and the scratch before a sheet is made.
ghost use Rattle.std.specs.Prelude.{◌≡◌};
ghost use Rattle.rules.specs.Rules.{lent, judged};
ghost use Rattle.sheet_rules.specs.Checks.{room_checks, verdict};

use rules::{Refusal, Rule, Table};

// Rule 7 for the scratch, then 13 for the list, for a table of so many rows.
fn check_room(rows: u16, list: usize, scratch: usize) -> Result<(), Refusal>
    ensures { result ≡ judged (room_checks rows list scratch) }
{
    if scratch < pairs::needed(rows) {
        return Err(Rule::Room.at(0));
    }
    if list < 2 * rows as usize + 1 {
        return Err(Rule::List.at(0));
    }
    Ok(())
}

// Rules 1 to 6, 16, 7, then 13.
pub fn check(mask: u32, table: Table<'_>, list: usize, scratch: usize) -> Result<(), Refusal>
    ensures { result ≡ verdict mask (lent table.entry) list scratch }
{
    rules::check_masked(rules::winch(), mask, table)?;
    check_room(table.rows as u16, list, scratch)
}
