#![tactic(auto)]
// Records of what became of each given row, written from the number lists in scratch.
ghost use Rattle.std.specs.Prelude.{◌≡◌, ◌<◌, min, length};
ghost use Rattle.records.specs.Records.{depth_by, fate_by, record_at_row, written};

// A row's depth: the length of the longest run to it, or endless.
#[derive(Clone, Copy)]
pub enum Depth {
    Number(u16),
    Endless,
}

// What became of a row: kept as a new row, folded into a given row, or unreached.
#[derive(Clone, Copy)]
pub enum Fate {
    Kept(u16),
    Folded(u16),
    Unreached,
}

// A row's record.
#[derive(Clone, Copy)]
pub struct Record {
    pub depth: Depth,
    pub fate: Fate,
}

// The depth of a row with this lead.
fn depth_of(lead: u16) -> Depth
    ensures { result ≡ depth_by lead }
{
    if lead == 65535 {
        return Depth::Endless;
    }
    Depth::Number(lead.saturating_sub(1))
}

// The fate of a row with this lead that folds into `fold`, and whose number is one more than its new one.
fn fate_of(row: u16, lead: u16, fold: u16, number: u16) -> Fate
    ensures { result ≡ fate_by row lead fold number }
{
    if lead == 0 {
        return Fate::Unreached;
    }
    if fold != row {
        return Fate::Folded(fold);
    }
    Fate::Kept(number.saturating_sub(1))
}

// The record of a row.
fn record_at(scratch: &[u16], rows: u16, row: u16) -> Record
    ensures { result ≡ record_at_row scratch.now rows row }
{
    let at = row as usize;
    let n = rows as usize;
    let lead = scratch::cell(scratch, at);
    let fold = scratch::cell(scratch, 2 * n + at);
    let number = scratch::cell(scratch, 3 * n + at);
    Record {
        depth: depth_of(lead),
        fate: fate_of(row, lead, fold, number),
    }
}

// The smaller of two counts.
pub fn fewer(rows: u16, room: usize) -> u16
    ensures { result ≡ min rows room }
{
    room.min(rows as usize) as u16
}

// Writes the record of each row, as far as there is room.
pub fn write_records(records: &mut [Record], scratch: &[u16], rows: u16)
    ensures { records.new ≡ written records.old scratch.now rows (min rows (length records.old)) }
{
    for i in 0..fewer(rows, records.len()) {
        records[i as usize] = record_at(scratch, rows, i);
    }
}
