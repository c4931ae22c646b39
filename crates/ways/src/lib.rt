#![tactic(auto)]
// The two ways through the reducer, by the scratch that is lent, and which cells each needs.
ghost use Rattle.std.specs.Prelude.{◌≡◌};
ghost use Rattle.ways.specs.Ways.{need_of};

// The first way has scratch for all pairs of rows; the second 12 cells a row.
#[derive(Clone, Copy)]
pub enum Way {
    First,
    Second,
}

// How many scratch cells a way needs for a table of so many rows.
pub fn needed(way: Way, rows: u16) -> usize
    ensures { result ≡ need_of way rows }
{
    match way {
        Way::First => pairs::needed(rows),
        Way::Second => 12 * rows as usize,
    }
}
