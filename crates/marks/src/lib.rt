#![tactic(auto)]
// Marks in packed bytes: row r has the bit worth 2^(r mod 8) in byte r div 8; set means ready.
ghost use Rattle.std.specs.Prelude.{◌≡◌, cond, eqb};
ghost use Rattle.tables.specs.Table.{mark_byte_count, mark_of};
ghost use Rattle.marks.specs.Marks.{marked, spare_bits_set};

// How many bytes hold the marks of `rows` rows.
pub fn mark_bytes(rows: usize) -> usize
    ensures { result ≡ mark_byte_count rows }
{
    rows.div_ceil(8)
}

// The mark of a row, 1 for ready; 0 beyond the bytes.
pub fn mark(marks: &[u8], row: usize) -> u8
    ensures { result ≡ mark_of marks.now row }
{
    match marks.get(row / 8) {
        Some(byte) => (*byte >> (row % 8)) & 1,
        None => 0,
    }
}

// Gives a row its mark: 1 is ready, anything else wait.
#[tactic(auto, using(crate::proofs::Bits::bit_put), unfolding(crate::specs::Marks::marked))]
pub fn put_mark(marks: &mut [u8], row: usize, mark: u8)
    ensures { marks.new ≡ marked marks.old row (cond (eqb mark 1) 1 0) }
{
    let at = row / 8;
    if at < marks.len() {
        let bit = 1 << (row % 8);
        if mark == 1 {
            marks[at] |= bit;
        } else {
            marks[at] &= !bit;
        }
    }
}

// Whether a bit of the last mark byte is set that belongs to no row.
#[tactic(auto, unfolding(crate::specs::Marks::spare_bits_set))]
pub fn spare_set(rows: usize, last: u8) -> bool
    ensures { result ≡ spare_bits_set rows last }
{
    let used = rows % 8;
    used != 0 && last >> used != 0
}
