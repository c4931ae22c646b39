#![tactic(auto)]
// The reducer: it shortens a table into lent cells and mark bytes, with a record of what became of each given row.
ghost use Rattle.std.specs.Prelude.{◌≡◌, length};
ghost use Rattle.rules.specs.Rules.{lent, offset_of};
ghost use Rattle.tables.specs.Table.{weight_by};
ghost use Rattle.tables.specs.Reduction.{records as records_of};
ghost use Rattle.ways.specs.Ways.{need_of};
ghost use Rattle.reduction_rules.specs.Checks.{verdict};
ghost use Rattle.reduction.specs.Reduce.{Promise};
ghost use Rattle.recording.specs.Recorded.{records_by};

use records::Record;
use rules::{Refusal, Table};
use ways::Way;

// Shortens a table on the scratch of either way, where a mask says which events count: the new one is written into the lent cells and mark bytes, a record of each given row into the lent records; the scratch is cleared.
pub fn reduce(
    way: Way,
    offset: Option<u16>,
    mask: u32,
    table: Table<'_>,
    newcells: &mut [u16],
    newmarks: &mut [u8],
    records: &mut [Record],
    scratch: &mut [u16],
) -> Result<usize, Refusal>
    ensures { let T = lent table.entry in let k = offset_of offset in
        let cells = newcells.old in let marks = newmarks.old in let before = records.old in let s = scratch.old in
        let need = need_of way in let v = verdict need mask T (length cells) (length marks) (length before) (length s) in
        Promise need v k mask T cells marks s result newcells.new newmarks.new scratch.new
        × (records.new ≡ records_by v before (records_of (weight_by mask) k T)) }
{
    let done = reduction::work(
        way,
        offset,
        mask,
        table,
        newcells,
        newmarks,
        scratch,
        records.len(),
    )?;
    records::write_records(records, scratch, done.rows);
    reduction::finish(scratch, done.used);
    Ok(done.left)
}

// The answer, and the records by value.
#[derive(Clone, Copy)]
pub struct Outcome {
    pub answer: Result<usize, Refusal>,
    pub records: [Record; 1024],
}

// The same with an array of records by value: it is lent here, and callers need not lend one.
pub fn reduce_recorded(
    way: Way,
    offset: Option<u16>,
    mask: u32,
    table: Table<'_>,
    newcells: &mut [u16],
    newmarks: &mut [u8],
    blank: [Record; 1024],
    scratch: &mut [u16],
) -> Outcome
    ensures { let T = lent table.entry in let k = offset_of offset in
        let cells = newcells.old in let marks = newmarks.old in let s = scratch.old in
        let need = need_of way in let v = verdict need mask T (length cells) (length marks) 1024 (length s) in
        Promise need v k mask T cells marks s result.answer newcells.new newmarks.new scratch.new
        × (result.records ≡ records_by v blank (records_of (weight_by mask) k T)) }
{
    let mut records = blank;
    let answer = reduce(
        way,
        offset,
        mask,
        table,
        newcells,
        newmarks,
        &mut records,
        scratch,
    );
    Outcome { answer, records }
}
