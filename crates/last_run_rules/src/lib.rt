#![tactic(auto)]
// What is judged of a table, a mask, a row and the lent scratch before the row's last run is told, and what is answered.
ghost use Rattle.std.specs.Prelude.{◌≡◌, [], ◌∷◌, ◌++◌};
ghost use Rattle.rules.specs.Rules.{lent, judged, winch, room_rule, masked_checks};
ghost use Rattle.scratch.specs.Scratch.{scratch_cells};
ghost use Rattle.last_run_rules.specs.Checks.{verdict};

use rules::{Refusal, Rule, Table};

// How far two rows are apart, and the length of their run in all its events.
#[derive(Clone, Copy)]
pub struct Told {
    pub distance: usize,
    pub length: usize,
}

// Rule 7, of the scratch for a table of so many rows.
fn check_scratch(rows: u16, room: usize) -> Result<(), Refusal>
    ensures { result ≡ judged (room_rule (scratch_cells rows) room ∷ []) }
{
    if room < pairs::needed(rows) {
        return Err(Rule::Room.at(0));
    }
    Ok(())
}

// Rules 1 to 6, 16 and 7: all but the row's.
fn check_all(mask: u32, table: Table<'_>, room: usize) -> Result<(), Refusal>
    ensures { let T = lent table.entry in
        result ≡ judged (masked_checks winch mask T ++ (room_rule (scratch_cells T.rows) room ∷ [])) }
{
    rules::check_masked(rules::winch(), mask, table)?;
    check_scratch(table.rows as u16, room)
}

// Rules 1 to 4, 4 of the row, 5, 6, 16 and 7.
pub fn check(mask: u32, table: Table<'_>, row: usize, room: usize) -> Result<(), Refusal>
    ensures { result ≡ verdict mask (lent table.entry) row room }
{
    rules::check_shape(rules::winch(), table)?;
    if table.rows <= row {
        return Err(Rule::Row.at(0));
    }
    check_all(mask, table, room)
}
