#![tactic(auto)]
// The distance of every pair of rows, with how its chosen run begins, and the depth of every row, in the lent scratch.
ghost use Rattle.std.specs.Prelude.{◌≡◌, length};
ghost use Rattle.rules.specs.Rules.{table_of};
ghost use Rattle.pairs.specs.Pairs.{lead_at, workable};
ghost use Rattle.lengths.specs.Lengths.{lengths_in, len_of, depth_at};

// A length that has no end.
const ENDLESS: u16 = 65535;

// Finds both, with the weights of events by a mask. Answers false, and does nothing, unless the table is valid and scratch has room.
pub fn find_lengths(
    mask: u32,
    rows: usize,
    events: usize,
    start: usize,
    cells: &[u16],
    marks: &[u8],
    scratch: &mut [u16],
) -> bool
    ensures { let T = table_of rows events start cells.now marks.now in let s = scratch.old in
        (result ≡ workable T (length s))
        × (scratch.new ≡ lengths_in mask T s) }
{
    if !first_events::find_measures(mask, rows, events, start, cells, marks, scratch) {
        return false;
    }
    depths::depths(mask, rows, events, start, cells, marks, scratch);
    true
}

// The lead of a row: one more than its depth, 0 if it is unreached.
#[tactic(auto, using(pairs::proofs::Triangle::triangle_bound))]
pub fn lead(scratch: &[u16], rows: u16, row: u16) -> u16
    ensures { result ≡ lead_at scratch.now rows row }
{
    scratch::cell(scratch, pairs::pair_cells(rows) + row as usize)
}

// The depth of a row: its lead less one.
pub fn depth(scratch: &[u16], rows: u16, row: u16) -> u16
    ensures { len_of result ≡ depth_at rows scratch.now row }
{
    let lead = lead(scratch, rows, row);
    if lead == ENDLESS {
        ENDLESS
    } else {
        lead.saturating_sub(1)
    }
}
