#![tactic(auto)]
// What the searches of the reducer share: the targets that they read, the cells of the lent scratch, and whether a table can be worked on.
ghost use Rattle.std.specs.Prelude.{◌≡◌, ◌+◌, ◌*◌, get_or, set};
ghost use Rattle.rules.specs.Rules.{table_of, judged, winch, table_checks};
ghost use Rattle.scratch.specs.Scratch.{cleared, fine};
ghost use Rattle.scratch.specs.Tests.{Tested, Once};

use rules::Table;

// A cell; 0 beyond the last.
pub fn cell(cells: &[u16], at: usize) -> u16
    ensures { result ≡ get_or cells.now at 0 }
{
    match cells.get(at) {
        Some(x) => *x,
        None => 0,
    }
}

// Writes a cell; beyond the last it does nothing.
pub fn put(cells: &mut [u16], at: usize, x: u16)
    ensures { cells.new ≡ set cells.old at x }
{
    if at < cells.len() {
        cells[at] = x;
    }
}

// The target of a row and an event.
#[tactic(auto, using(crate::proofs::Numbers::product_bound))]
pub fn target(cells: &[u16], events: u16, row: u16, event: u16) -> u16
    ensures { result ≡ get_or cells.now (row * events + event) 0 }
{
    cell(cells, row as usize * events as usize + event as usize)
}

// The cells from one place up to another become 0, where there are so many.
pub fn clear(cells: &mut [u16], from: usize, to: usize)
    ensures { cells.new ≡ cleared cells.old from to }
{
    if to <= cells.len() {
        for i in from..to {
            cells[i] = 0;
        }
    }
}

// Whether there are `count` cells from a place on, no more than 65,535, and just one of them holds x. There is no way out of the loop, so that it runs on many cells at a time.
#[tactic(auto, using(crate::proofs::Tallies::tallies))]
pub fn once(cells: &[u16], from: usize, count: usize, x: u16) -> bool
    ensures { Tested result (Once from count x cells.now) }
{
    if cells.len() < count || cells.len() - count < from || 65535 < count {
        return false;
    }
    let mut found: u16 = 0;
    for i in 0..count {
        if cells[from + i] == x {
            found += 1;
        }
    }
    found == 1
}

// Whether a table breaks none of the rules 1 to 6.
pub fn valid(rows: usize, events: usize, start: usize, cells: &[u16], marks: &[u8]) -> bool
    ensures { result ≡ fine (judged (table_checks winch (table_of rows events start cells.now marks.now))) }
{
    let table = Table {
        rows,
        events,
        start,
        cells,
        marks,
    };
    rules::check_table(rules::winch(), table).is_ok()
}
