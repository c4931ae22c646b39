#![tactic(auto)]
// How many rows are kept at each offset, found in a scratch that holds the leads of the rows and how far they are from those before them.
ghost use Rattle.std.specs.Prelude.{◌≡◌, ◌+◌, ◌*◌, ◌≤◌, ◌<◌, length, get_or};
ghost use Rattle.tables.specs.Lengths.{one_less};
ghost use Rattle.tables.specs.Lists.{tabulate, over};
ghost use Rattle.scratch.specs.Scratch.{len_cell};
ghost use Rattle.lengths.specs.Lengths.{len_of};
ghost use Rattle.levels.specs.Levels.{till};
ghost use Rattle.sheet_rules.specs.Checks.{entries};
ghost use Rattle.sheet_counts.specs.Steps.{goes_at, gone_at, kept_at, counted, left_of, Enough, filled};

// A length that has no end.
const ENDLESS: u16 = 65535;

// The first offset at which a reached row is not kept, by its least distance from those before it and its lead.
fn first_gone(least: u16, lead: u16) -> usize
    requires { 0 < lead }
    ensures { result ≡ len_cell (till (len_of least) (one_less (len_of lead))) }
{
    if least == 0 {
        return 0;
    }
    if least == ENDLESS || lead == ENDLESS {
        return ENDLESS as usize;
    }
    least as usize + lead as usize - 1
}

// The same of any row, where the leads stand from a cell on; an unreached one is kept at no offset.
#[tactic(auto, unfolding(crate::specs::Steps::goes_at))]
fn goes_at(scratch: &[u16], from: usize, rows: u16, q: u16) -> usize
    requires { from ≤ length scratch.now }
    ensures { result ≡ goes_at from rows scratch.now q }
{
    let row = q as usize;
    let lead = scratch::cell(scratch, from + row);
    if lead == 0 {
        return 0;
    }
    let least = scratch::cell(scratch, from + 2 * rows as usize + row);
    first_gone(least, lead)
}

// Counts one more at a place, if that is one of the first `count`.
fn count_one(list: &mut [u16], count: usize, at: usize)
    requires { (count ≤ length list.old) × (at < count → get_or list.old at 0 < 65535) }
    ensures { list.new ≡ counted list.old count at }
{
    if at < count {
        list[at] += 1;
    }
}

// Counts in the first `count` places how many rows go at each offset.
fn tally(scratch: &[u16], from: usize, rows: u16, list: &mut [u16], count: usize)
    requires { (count ≤ length list.old) × (from ≤ length scratch.now) }
    ensures { list.new ≡ over list.old 0 (tabulate count (gone_at from rows scratch.now rows)) }
{
    scratch::clear(list, 0, count);
    for q in 0..rows {
        count_one(list, count, goes_at(scratch, from, rows, q));
    }
}

// Puts for each of the first `count` numbers what is left of the rows once it and those before it have gone.
fn settle(list: &mut [u16], rows: u16, count: usize)
    requires { Enough rows count list.old }
    ensures { let l = list.old in list.new ≡ over l 0 (tabulate count (λ k. left_of rows l (k + 1))) }
{
    let mut left = rows;
    for k in 0..count {
        left -= list[k];
        list[k] = left;
    }
}

// Writes how many rows are kept at each offset from 0 to twice the rows.
fn write_all(scratch: &[u16], from: usize, rows: u16, list: &mut [u16])
    requires { (entries rows ≤ length list.old) × (from ≤ length scratch.now) }
    ensures { list.new ≡ over list.old 0 (tabulate (entries rows) (kept_at from rows scratch.now)) }
{
    let count = 2 * rows as usize + 1;
    tally(scratch, from, rows, list, count);
    settle(list, rows, count);
}

// The same, where the list has room for them and the leads begin no later than the scratch ends; otherwise nothing is written.
#[tactic(auto, unfolding(crate::specs::Steps::filled))]
pub fn fill(scratch: &[u16], from: usize, rows: u16, list: &mut [u16])
    ensures { list.new ≡ filled from rows scratch.now list.old }
{
    if 2 * rows as usize + 1 <= list.len() && from <= scratch.len() {
        write_all(scratch, from, rows, list);
    }
}
