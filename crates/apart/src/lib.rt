#![tactic(auto)]
// How far each row is from the rows before it in the order, on the scratch for all pairs of rows: by the pairs, or without distances by levels.
ghost use Rattle.std.specs.Prelude.{◌≡◌, ◌≤◌, length};
ghost use Rattle.rules.specs.Rules.{table_of};
ghost use Rattle.row_starts.specs.RowStarts.{starts_of_rows};
ghost use Rattle.pairs.specs.Pairs.{folds_start, needed, triangle};
ghost use Rattle.quick_folding.specs.Parts.{Wrote};
ghost use Rattle.apart.specs.Steps.{ahead_at, nearer as nearer_of, apart_at};
ghost use Rattle.apart.specs.Finding.{leads_from, Finding};

// A length that has no end.
const ENDLESS: u16 = 65535;

// Whether row p comes before row q in the order: it is deeper, or as deep and its number is lower.
#[tactic(auto, unfolding(crate::specs::Steps::ahead_at))]
fn ahead(scratch: &[u16], rows: u16, q: u16, p: u16) -> bool
    ensures { result ≡ ahead_at rows scratch.now q p }
{
    let own = lengths::lead(scratch, rows, q);
    let other = lengths::lead(scratch, rows, p);
    own < other || (own == other && p < q)
}

// The lesser of a distance and that of rows q and p, if p comes before q.
#[tactic(auto, using(measures::proofs::Cells::measure_read))]
fn nearer(starts: &[u32], scratch: &[u16], rows: u16, q: u16, p: u16, least: u16) -> u16
    requires { starts.now ≡ starts_of_rows }
    ensures { result ≡ nearer_of rows scratch.now q p least }
{
    if ahead(scratch, rows, q, p) {
        least.min(measures::between(starts, scratch, q, p).distance)
    } else {
        least
    }
}

// The least distance of a row from one that comes before it.
#[tactic(auto, unfolding(crate::specs::Steps::apart_at))]
fn apart(scratch: &[u16], rows: u16, q: u16) -> u16
    ensures { result ≡ apart_at rows scratch.now q rows }
{
    let starts = row_starts::table();
    let mut least = ENDLESS;
    for p in 0..rows {
        least = nearer(&starts, scratch, rows, q, p, least);
    }
    least
}

// Puts those of all rows two regions behind the leads.
fn put_all(scratch: &mut [u16], rows: u16)
    requires { needed rows ≤ length scratch.old }
    ensures { let s = scratch.old in Wrote (folds_start rows) rows (λ q. apart_at rows s q rows) s scratch.new }
{
    let at = pairs::folds_at(rows);
    for q in 0..rows {
        scratch[at + q as usize] = apart(scratch, rows, q);
    }
}

// By pairs of rows.
fn by_pairs(
    mask: u32,
    rows: usize,
    events: usize,
    start: usize,
    cells: &[u16],
    marks: &[u8],
    scratch: &mut [u16],
)
    ensures { Finding (triangle rows) mask (table_of rows events start cells.now marks.now) scratch.old scratch.new }
{
    if lengths::find_lengths(mask, rows, events, start, cells, marks, scratch) {
        put_all(scratch, rows as u16);
    }
}

// By levels, for which the scratch for all pairs is enough.
fn by_levels(
    mask: u32,
    rows: usize,
    events: usize,
    start: usize,
    cells: &[u16],
    marks: &[u8],
    scratch: &mut [u16],
)
    requires { 17 ≤ rows }
    ensures { Finding 0 mask (table_of rows events start cells.now marks.now) scratch.old scratch.new }
{
    if rows <= 1024 && pairs::needed(rows as u16) <= scratch.len() {
        quick_folding::find_apart(mask, rows, events, start, cells, marks, scratch);
    }
}

// How far each row of a table is from the rows before it, with the weights of events by a mask, by the quicker of the two. Answers where the leads stand. It changes nothing unless the table is valid and scratch has room.
#[tactic(auto, using(crate::proofs::Found::found_either_way))]
pub fn find_apart(
    mask: u32,
    rows: usize,
    events: usize,
    start: usize,
    cells: &[u16],
    marks: &[u8],
    scratch: &mut [u16],
) -> usize
    ensures { let T = table_of rows events start cells.now marks.now in
        (result ≡ leads_from rows) × Finding (leads_from rows) mask T scratch.old scratch.new }
{
    if rows < 17 {
        by_pairs(mask, rows, events, start, cells, marks, scratch);
        pairs::pair_cells(rows as u16)
    } else {
        by_levels(mask, rows, events, start, cells, marks, scratch);
        0
    }
}
