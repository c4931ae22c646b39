#![tactic(auto)]
// The table of leaders: a place is put into it by a key of its row's signature, or joined to the place of that signature that is in it.
ghost use Rattle.std.specs.Prelude.{◌≡◌, ◌*◌, ◌<◌, IfSome};
ghost use Rattle.scratch.specs.Tests.{Tested};
ghost use Rattle.leader_table.specs.Putting.{Old, Settled, Sizes, Alike, Found, Put};

// Whether the numbers of rows, events and places, and the lent cells, fit together.
pub fn sized(n: usize, m: usize, to: usize, known: usize, scratch: &[u16]) -> bool
    ensures { Tested result (Sizes n m to known scratch.now) }
{
    n <= 1024 && 12 * n <= scratch.len() && m <= 32 && to <= n && known <= to
}

// Whether place c is settled when the places below i have been put: it is one of them, or its entry of the level before still holds.
fn settled(
    n: usize,
    m: usize,
    known: usize,
    last: usize,
    cells: &[u16],
    scratch: &[u16],
    i: usize,
    c: usize,
) -> bool
    requires { Sizes n m n known scratch.now × (c < n) }
    ensures { Tested result (Settled (Old n m known last cells.now scratch.now) i c) }
{
    c < i
        || c < known
            && !signatures::changed(n as u16, m as u16, cells, scratch, scratch[3 * n + c], last)
}

// Whether place i may join place y: that one leads, is settled, and has the signature of i.
fn alike(
    mask: u32,
    n: usize,
    m: usize,
    to: usize,
    known: usize,
    last: usize,
    cells: &[u16],
    scratch: &[u16],
    i: usize,
    y: usize,
) -> bool
    requires { Sizes n m to known scratch.now × (i < to) }
    ensures { Tested result (Alike mask n m to known last cells.now scratch.now i y) }
{
    y < to
        && y != i
        && scratch[4 * n + y] as usize == y
        && scratch[6 * n + y] == scratch[6 * n + i]
        && settled(n, m, known, last, cells, scratch, i, y)
        && signatures::same(
            mask,
            n as u16,
            m as u16,
            cells,
            scratch,
            scratch[3 * n + y],
            scratch[3 * n + i],
        )
}

// From the slot of its key on, the first cell of the table that is empty or has a place like i, if there is one among 64 cells.
fn find(
    mask: u32,
    n: usize,
    m: usize,
    to: usize,
    known: usize,
    last: usize,
    cells: &[u16],
    scratch: &[u16],
    i: usize,
) -> Option<usize>
    requires { Sizes n m to known scratch.now × (i < to) }
    ensures { IfSome result (λ at. (at < 3 * n) × Found mask n m to known last cells.now i scratch.now at) }
{
    let slot = scratch[6 * n + i] as usize * (2 * n) / 65536;
    for at in slot..(slot + 64).min(3 * n) {
        let x = scratch[9 * n + at] as usize;
        if x == 0 || alike(mask, n, m, to, known, last, cells, scratch, i, x - 1) {
            return Some(at);
        }
    }
    None
}

// Place i is entered into the table, or joined to the place like it: the lower leads. Answers the place that leads no more; `to` if none does, more if there was no room.
fn put_place(
    mask: u32,
    n: usize,
    m: usize,
    to: usize,
    known: usize,
    last: usize,
    cells: &[u16],
    scratch: &mut [u16],
    i: usize,
) -> usize
    requires { Sizes n m to known scratch.old × (i < to) }
    ensures { Put mask n m to known last cells.now i scratch.old scratch.new result }
{
    let key = signatures::key_of(mask, n as u16, m as u16, cells, scratch, scratch[3 * n + i]);
    scratch[6 * n + i] = key;
    let Some(at) = find(mask, n, m, to, known, last, cells, scratch, i) else {
        return to + 1;
    };
    let x = scratch[9 * n + at] as usize;
    if x == 0 {
        scratch[9 * n + at] = (i + 1) as u16;
        return to;
    }
    let y = x - 1;
    if y < i {
        scratch[4 * n + i] = y as u16;
        return i;
    }
    scratch[4 * n + y] = i as u16;
    scratch[9 * n + at] = (i + 1) as u16;
    y
}

// The same, where the numbers fit together and i is one of the places; else it changes nothing.
pub fn put(
    mask: u32,
    n: usize,
    m: usize,
    to: usize,
    known: usize,
    last: usize,
    cells: &[u16],
    scratch: &mut [u16],
    i: usize,
) -> usize
    ensures { let s = scratch.old in let t = scratch.new in
        (Sizes n m to known s → i < to → Put mask n m to known last cells.now i s t result) × ((Sizes n m to known s → i < to → ⊥) → t ≡ s) }
{
    if !sized(n, m, to, known, scratch) || to <= i {
        return 1025;
    }
    put_place(mask, n, m, to, known, last, cells, scratch, i)
}
