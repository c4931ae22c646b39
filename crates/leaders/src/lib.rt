#![tactic(auto)]
// The classes of a level above 0 where idle events stay: rows are near just if every counted event leads them to one class of the level before, which is
// their signature. One table of leaders is gone on with from level to level, and only those are put again of which an event leads to a class that changed.
ghost use Rattle.std.specs.Prelude.{◌+◌, ◌*◌, ◌≤◌, ◌<◌, MatchOption, IfSome};
ghost use Rattle.leader_table.specs.Putting.{Sizes};
ghost use Rattle.leaders.specs.Leaders.{InHand, Kept, Begun, Joins};
ghost use Rattle.leaders.specs.Steps.{Stepped, Seeded, JoiningIn};

// The turn of place i: if it leads and is not settled, it is put. Answers how many places below u lead no more, noted from 7 * n on; nothing if there was no room.
fn step(
    mask: u32,
    n: usize,
    m: usize,
    u: usize,
    to: usize,
    known: usize,
    last: usize,
    cells: &[u16],
    scratch: &mut [u16],
    i: usize,
    lost: usize,
) -> Option<usize>
    requires { Sizes n m to known scratch.old × (u ≤ to) × (i < to) × (lost ≤ i) }
    ensures { let x = cells.now in let s = scratch.old in let t = scratch.new in
        MatchOption result (Stepped mask n m u to known last x i lost s t 1025) (λ count. (count ≤ i + 1) × Stepped mask n m u to known last x i lost s t count) }
{
    if scratch[4 * n + i] as usize != i {
        return Some(lost);
    }
    if i < known
        && !signatures::changed(n as u16, m as u16, cells, scratch, scratch[3 * n + i], last)
    {
        return Some(lost);
    }
    let z = leader_table::put(mask, n, m, to, known, last, cells, scratch, i);
    if to < z {
        return None;
    }
    if u <= z {
        return Some(lost);
    }
    scratch[7 * n + lost] = z as u16;
    Some(lost + 1)
}

// The turns of the places from `from` up to `to`, as long as there is room.
fn step_all(
    mask: u32,
    n: usize,
    m: usize,
    u: usize,
    to: usize,
    known: usize,
    last: usize,
    cells: &[u16],
    scratch: &mut [u16],
    from: usize,
) -> Option<usize>
    requires { Sizes n m to known scratch.old × (u ≤ to) × (from ≤ known) }
    ensures { let x = cells.now in let s = scratch.old in let t = scratch.new in
        Kept n s t × IfSome result (λ lost. (lost ≤ to)
        × (InHand n m to x s → JoiningIn mask n m u to known last x from s s 0 → JoiningIn mask n m u to known last x to s t lost)) }
{
    let mut lost = 0;
    for i in from..to {
        lost = step(mask, n, m, u, to, known, last, cells, scratch, i, lost)?;
    }
    Some(lost)
}

// The places from `known` up to `to` begin with the values of their rows for their leaders.
fn seed(scratch: &mut [u16], n: usize, m: usize, to: usize, known: usize)
    requires { Sizes n m to known scratch.old }
    ensures { Seeded n known to scratch.old scratch.new }
{
    for c in known..to {
        let row = scratch[3 * n + c] as usize;
        scratch[4 * n + c] = scratch::cell(scratch, 2 * n + row);
    }
}

// Joins the leaders of one signature among the places below `to`, of which the `known` first are in the table but for those of which an event leads to a class that changed
// at level `last`; none did if that is above all 16-bit numbers. Answers how many places below u lead no more; more than 1,024 if there was no room, or nothing fits together.
pub fn join(
    mask: u32,
    n: usize,
    m: usize,
    u: usize,
    to: usize,
    known: usize,
    last: usize,
    cells: &[u16],
    scratch: &mut [u16],
) -> usize
    ensures { let x = cells.now in let s = scratch.old in let t = scratch.new in
        Kept n s t × (Sizes n m to known s → u ≤ to → Begun mask n m to known last x s → result ≤ 1024 → Joins mask n m u to x s t result) }
{
    if !leader_table::sized(n, m, to, known, scratch) || to < u {
        return 1025;
    }
    seed(scratch, n, m, to, known);
    let from = if 65535 < last { known } else { 0 };
    step_all(mask, n, m, u, to, known, last, cells, scratch, from).unwrap_or(1025)
}
