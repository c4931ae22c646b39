#![tactic(auto)]
// What is judged of two tables and the lent scratch before the tables are put in order, and what is answered.
ghost use Rattle.std.specs.Prelude.{◌≡◌, ◌++◌};
ghost use Rattle.rules.specs.Rules.{lent, judged, winch, table_checks};
ghost use Rattle.order_rules.specs.Checks.{both_checks, verdict};

use rules::{Refusal, Rule, Table};

// Rules 19 and 7: of both tables.
fn check_both(
    rows: u16,
    events: usize,
    rows2: u16,
    events2: usize,
    room: usize,
) -> Result<(), Refusal>
    ensures { result ≡ judged (both_checks rows events rows2 events2 room) }
{
    if events != events2 {
        return Err(Rule::Unlike.at(0));
    }
    if room < row_pairs::needed(rows, rows2) {
        return Err(Rule::Room.at(0));
    }
    Ok(())
}

// The second table's rules 1 to 6, then those of both.
fn check_second(rows: u16, events: usize, second: Table<'_>, room: usize) -> Result<(), Refusal>
    ensures { let U = lent second.entry in
        result ≡ judged (table_checks winch U ++ both_checks rows events U.rows U.events room) }
{
    rules::check_table(rules::winch(), second)?;
    check_both(rows, events, second.rows as u16, second.events, room)
}

// The first table's rules 1 to 6, the second's, 19 and 7.
pub fn check(first: Table<'_>, second: Table<'_>, room: usize) -> Result<(), Refusal>
    ensures { result ≡ verdict (lent first.entry) (lent second.entry) room }
{
    rules::check_table(rules::winch(), first)?;
    check_second(first.rows as u16, first.events, second, room)
}
