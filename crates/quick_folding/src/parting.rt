// How far each row is from the rows before it, without distances: in the sweep at offset 0 it is the level at which the row loses its lead.
ghost use Rattle.std.specs.Prelude.{◌≡◌, true, ◌*◌, ◌≤◌, ◌<◌, length};
ghost use Rattle.tables.specs.Table.{weight_by, machine, events_of};
ghost use Rattle.tables.specs.Reduction.{order};
ghost use Rattle.rules.specs.Rules.{table_of};
ghost use Rattle.quick_folding.specs.Parts.{Wrote, Valued, Labels};
ghost use Rattle.quick_folding.specs.State.{Fits, Stays, Tabled, Laid, Apart};
ghost use Rattle.quick_folding.specs.Parting.{loss_at, apart_at, Noting, Parted, Measured};

// The level at which the row at place c lost its lead: one noted before, or this one; 0 if it leads.
#[tactic(auto, unfolding(crate::specs::Parting::loss_at))]
fn loss(scratch: &[u16], n: usize, u: usize, c: usize, level: usize) -> u16
    requires { Noting n u level scratch.now × (c < u) }
    ensures { result ≡ loss_at n level scratch.now c }
{
    let noted = scratch[8 * n + c];
    if noted != 0 {
        return noted;
    }
    let row = scratch[3 * n + c] as usize;
    if scratch[2 * n + row] as usize == c {
        return 0;
    }
    level as u16
}

// Notes the level for each of the first u places whose row has lost its lead at it.
fn note_losses(scratch: &mut [u16], n: usize, u: usize, level: usize)
    requires { Noting n u level scratch.old }
    ensures { let s = scratch.old in Wrote (8 * n) u (loss_at n level s) s scratch.new }
{
    for c in 0..u {
        scratch[8 * n + c] = loss(scratch, n, u, c, level);
    }
}

// One level more, with all rows at hand. At rest there are no more losses, and so many levels as rows are done.
fn part_level(
    mask: u32,
    n: usize,
    m: usize,
    start: usize,
    cells: &[u16],
    marks: &[u8],
    scratch: &mut [u16],
    plain: bool,
    x: super::Stand,
) -> super::Stand
    requires { let T = table_of n m start cells.now marks.now in let E = events_of (weight_by mask) T in let M = machine T in
        Fits T 0 scratch.old × Parted E M x.level x.kept scratch.old × (x.place ≡ length (order E M)) × (x.level < n)
        × (plain ≡ true → Stays E M) × Tabled mask T x.kept x.known x.last scratch.old }
    ensures { let T = table_of n m start cells.now marks.now in let E = events_of (weight_by mask) T in let M = machine T in
        Apart n scratch.old scratch.new
        × Parted E M result.level result.kept scratch.new × (result.place ≡ length (order E M)) × (x.level < result.level) × (result.level ≤ n)
        × Tabled mask T result.kept result.known result.last scratch.new }
{
    let last = x.level;
    let level = last + 1;
    let count = x.place;
    let u = x.kept;
    let made = super::any_level(
        0, mask, n, m, start, cells, marks, scratch, plain, level, count, x,
    );
    note_losses(scratch, n, u, level);
    if made.rest {
        return super::standing(count, u, n, true, None, 0);
    }
    made
}

// Level after level, until there are as many as rows: a distance that ends is less.
pub(crate) fn part_all(
    mask: u32,
    n: usize,
    m: usize,
    start: usize,
    cells: &[u16],
    marks: &[u8],
    scratch: &mut [u16],
    count: usize,
)
    requires { let T = table_of n m start cells.now marks.now in let E = events_of (weight_by mask) T in let M = machine T in
        Fits T 0 scratch.old × Laid E M 0 scratch.old × (count ≡ length (order E M)) }
    ensures { let T = table_of n m start cells.now marks.now in let E = events_of (weight_by mask) T in
        Measured E (machine T) scratch.old scratch.new }
{
    let plain = super::all_stay(mask, n, m, cells, scratch);
    let mut x = super::first_level(0, mask, n, m, start, cells, marks, scratch, count);
    scratch::clear(scratch, 8 * n, 9 * n);
    while x.level < n {
        x = part_level(mask, n, m, start, cells, marks, scratch, plain, x);
    }
}

// The least distance of row q from the rows before it: 0 where it has folded, else the level noted at its place. 0 where it has no lead.
#[tactic(auto, unfolding(crate::specs::Parting::apart_at))]
fn apart_of(scratch: &[u16], n: usize, q: usize) -> u16
    requires { Labels n scratch.now × (q < n) }
    ensures { result ≡ apart_at n scratch.now q }
{
    if scratch[q] == 0 {
        return 0;
    }
    let c = scratch[n + q] as usize;
    if scratch[3 * n + c] as usize != q {
        return 0;
    }
    levels::parted(scratch[8 * n + c])
}

// In place of the values, the least distances.
pub(crate) fn name_apart(scratch: &mut [u16], n: usize)
    requires { Labels n scratch.old }
    ensures { let s = scratch.old in Valued n n (apart_at n s) s scratch.new }
{
    for q in 0..n {
        scratch[2 * n + q] = apart_of(scratch, n, q);
    }
}
