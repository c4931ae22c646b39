#![tactic(auto)]
// Pairs of a row of one table and a row of another: how many there are, where each has its cell, which of its rows shows the lower mark.
ghost use Rattle.std.specs.Prelude.{◌≡◌, ◌+◌, ◌*◌};
ghost use Rattle.tables.specs.Table.{mark_of};
ghost use Rattle.ordering.specs.Order.{by_marks};
ghost use Rattle.ordering.specs.Found.{number_of};

// How many cells the pairs take.
pub fn needed(rows: u16, rows2: u16) -> usize
    ensures { result ≡ rows * rows2 }
{
    rows as usize * rows2 as usize
}

// The cell of row q of the first table and row p of the second, which has so many rows.
pub fn place(rows2: u16, q: u16, p: u16) -> usize
    ensures { result ≡ q * rows2 + p }
{
    needed(q, rows2) + p as usize
}

// Which of the two shows the lower mark: 1 the first table's row, 2 the second's, 0 if they show the same.
#[tactic(auto, unfolding(ordering::specs::Order::by_marks))]
pub fn lower(marks: &[u8], marks2: &[u8], q: u16, p: u16) -> u16
    ensures { result ≡ number_of (by_marks (mark_of marks.now q) (mark_of marks2.now p)) }
{
    let x = marks::mark(marks, q as usize);
    let y = marks::mark(marks2, p as usize);
    if x < y {
        1
    } else if y < x {
        2
    } else {
        0
    }
}
