#![tactic(auto)]
// The rows into which rows fold, without distances: level by level the rows that need a level join those before them, and fold into the first row of their class.
ghost use Rattle.std.specs.Prelude.{◌≡◌, cond, true, false, ℕ, ◌+◌, ◌*◌, ◌≤◌, ◌<◌, length, get_or, IfSome};
ghost use Rattle.std.specs.Option.{unwrap_or};
ghost use Rattle.tables.specs.Table.{weight_by, machine, events_of};
ghost use Rattle.tables.specs.Reduction.{order};
ghost use Rattle.rules.specs.Rules.{table_of, offset_of};
ghost use Rattle.scratch.specs.Scratch.{lead_in, few_cells, workable_in};
ghost use Rattle.scratch.specs.Folds.{Folds};
ghost use Rattle.classes.specs.Values.{values_by, Given};
ghost use Rattle.leader_table.specs.Putting.{Sizes};
ghost use Rattle.leaders.specs.Leaders.{Begun, Kept, Joins};
ghost use Rattle.levels.specs.Levels.{far as far_of};
ghost use Rattle.levels.specs.Cells.{need_cell};
ghost use Rattle.quick_folding.specs.Parts.{value_at, list_at, fold_at, Appendable, Appended, Valued, Still, Renewable, Relabelled, Relabelling, Losing, Alone, Renewed, Seated, Seating, Takable, Taken, Searching, Until, Onward, Labels, Staying, StaysAt};
ghost use Rattle.quick_folding.specs.State.{Fits, Stays, Tabled, Laid, Apart, Before, After, Going, Folded};
ghost use Rattle.quick_folding.specs.Grouping.{Grouped, Tells};
ghost use Rattle.quick_folding.specs.Parting.{Aparts};

mod parting;

// Moves `count` rows of the list down from place i to place u; each begins with its own place for its value.
fn append(scratch: &mut [u16], n: usize, u: usize, i: usize, count: usize)
    requires { Appendable n u i count scratch.old }
    ensures { Appended n u i count scratch.old scratch.new }
{
    for x in 0..count {
        let q = scratch[3 * n + (i + x)];
        scratch[3 * n + (u + x)] = q;
        scratch[2 * n + q as usize] = (u + x) as u16;
    }
}

// Whether the leader of every place below u is the value of its row.
fn still(scratch: &[u16], n: usize, u: usize) -> bool
    requires { let s = scratch.now in (n ≤ 1024) × (12 * n ≤ length s) × (u ≤ n) × ((c : ℕ) → c < u → list_at n s c < n) }
    ensures { (result ≡ true → Still n u scratch.now) × (result ≡ false → 0 < u) }
{
    for i in 0..u {
        let row = scratch[3 * n + i] as usize;
        if scratch[4 * n + i] != scratch[2 * n + row] {
            return false;
        }
    }
    true
}

// The value of row q becomes its leader, and the level is noted where that is another.
fn relabel_row(scratch: &mut [u16], n: usize, level: usize, q: usize)
    requires { (n ≤ 1024) × (12 * n ≤ length scratch.old) × (level ≤ 65535) × (q < n) × (value_at n scratch.old q < n) }
    ensures { Relabelled n level q scratch.old scratch.new }
{
    let v = scratch[2 * n + q];
    let w = scratch[4 * n + v as usize];
    if w != v {
        scratch[2 * n + q] = w;
        scratch[5 * n + q] = level as u16;
    }
}

// Each value becomes its leader.
fn relabel(scratch: &mut [u16], n: usize, level: usize)
    requires { let s = scratch.old in (n ≤ 1024) × (12 * n ≤ length s) × (level ≤ 65535) × ((q : ℕ) → q < n → value_at n s q < n) }
    ensures { Relabelling n level n scratch.old scratch.new }
{
    for q in 0..n {
        relabel_row(scratch, n, level, q);
    }
}

// Whether few places have lost their lead, and each led its own row alone: then there is no need to look at all rows.
fn few_alone(scratch: &[u16], n: usize, lost: usize) -> bool
    requires { (n ≤ 1024) × (12 * n ≤ length scratch.now) × (lost ≤ n) }
    ensures { result ≡ true → Alone n lost scratch.now }
{
    if 8 < lost {
        return false;
    }
    for x in 0..lost {
        if !scratch::once(scratch, 2 * n, n, scratch[7 * n + x]) {
            return false;
        }
    }
    true
}

// The value of the row that each of them led becomes the leader.
fn relabel_lost(scratch: &mut [u16], n: usize, level: usize, lost: usize)
    requires { (u : ℕ) × Renewable n u level lost scratch.old × (lost ≤ 1024) × Alone n lost scratch.old }
    ensures { Losing n level lost scratch.old scratch.new }
{
    for x in 0..lost {
        let z = scratch[7 * n + x] as usize;
        let row = scratch[3 * n + z] as usize;
        relabel_row(scratch, n, level, row);
    }
}

// Each value becomes its leader, unless all is still: no place below u has lost its lead, if it is known how many have, or the leader of every one is the value of its row.
// Answers whether it is.
fn renew(scratch: &mut [u16], n: usize, u: usize, level: usize, lost: Option<usize>) -> bool
    requires { Renewable n u level (unwrap_or lost 1025) scratch.old × IfSome lost (λ x. x ≤ 1024) }
    ensures { Renewed n u level (unwrap_or lost 1025) scratch.old scratch.new result }
{
    match lost {
        Some(0) => return true,
        None if still(scratch, n, u) => return true,
        Some(lost) if few_alone(scratch, n, lost) => relabel_lost(scratch, n, level, lost),
        _ => relabel(scratch, n, level),
    }
    false
}

// The place of the row at place i among the kept ones, where `count` are kept so far: a row that leads moves down behind them.
fn seat(scratch: &mut [u16], n: usize, u: usize, i: usize, count: usize) -> u16
    requires { Seating n u i count scratch.old }
    ensures { Seated n u i count scratch.old scratch.new result }
{
    let leader = scratch[4 * n + i];
    if leader as usize == i {
        let q = scratch[3 * n + i];
        let at = count as u16;
        scratch[7 * n + i] = at;
        scratch[3 * n + count] = q;
        at
    } else if (leader as usize) < u {
        leader
    } else {
        scratch[7 * n + leader as usize]
    }
}

// The new rows, at places from u on, fold into their leaders; those that lead are kept. Answers how many are kept now.
fn take_new(scratch: &mut [u16], n: usize, u: usize, more: usize) -> usize
    requires { Takable n u more scratch.old }
    ensures { Taken n u more result scratch.old scratch.new }
{
    let mut count = u;
    for d in 0..more {
        let q = scratch[3 * n + (u + d)] as usize;
        let at = seat(scratch, n, u, u + d, count);
        scratch[n + q] = at;
        scratch[2 * n + q] = at;
        if at as usize == count {
            count += 1;
        }
    }
    count
}

// The level that row q needs.
fn need(scratch: &[u16], k: usize, q: usize) -> usize
    requires { (q < length scratch.now) × (k ≤ 65535) }
    ensures { result ≡ need_cell k (lead_in scratch.now q) }
{
    levels::needed(k as u16, scratch[q])
}

// The first place from i on whose row needs more than the level; `count` if there is none.
fn until(scratch: &[u16], n: usize, k: usize, i: usize, count: usize, level: usize) -> usize
    requires { Searching n k i count scratch.now }
    ensures { Until n k i count level scratch.now result }
{
    for x in i..count {
        if level < need(scratch, k, scratch[3 * n + x] as usize) {
            return x;
        }
    }
    count
}

// The level after this one: at rest the one that the next row needs, else one more.
fn next(scratch: &[u16], n: usize, k: usize, i: usize, level: usize, rest: bool) -> usize
    requires { Onward n k i level scratch.now }
    ensures { let s = scratch.now in result ≡ cond rest (need_cell k (lead_in s (list_at n s i))) (level + 1) }
{
    if rest {
        need(scratch, k, scratch[3 * n + i] as usize)
    } else {
        level + 1
    }
}

// Where the sweep stands: the place in the order, how many rows are kept, the level, and whether nothing has moved at it. How many of the kept rows are in the table of
// leaders, and the level at which values changed last.
#[derive(Clone, Copy)]
struct Stand {
    place: usize,
    kept: usize,
    level: usize,
    rest: bool,
    known: usize,
    last: usize,
}

// Joins leaders of one signature, with an empty table. Answers how many places below u lead no more, if there was room.
fn join_anew(
    mask: u32,
    n: usize,
    m: usize,
    u: usize,
    to: usize,
    last: usize,
    cells: &[u16],
    scratch: &mut [u16],
) -> Option<usize>
    requires { let x = cells.now in let s = scratch.old in Sizes n m to 0 s × (u ≤ to) × Begun mask n m to 0 last x s }
    ensures { let x = cells.now in let s = scratch.old in let t = scratch.new in
        Kept n s t × IfSome result (λ r. (r ≤ 1024) × Joins mask n m u to x s t r) }
{
    scratch::clear(scratch, 9 * n, 12 * n);
    let lost = leaders::join(mask, n, m, u, to, 0, last, cells, scratch);
    (lost <= 1024).then_some(lost)
}

// Joins leaders of one signature, where every idle event stays: with the table of the level before, and if there is none or no room in it, anew.
fn join_leaders(
    plain: bool,
    mask: u32,
    n: usize,
    m: usize,
    u: usize,
    to: usize,
    known: usize,
    last: usize,
    cells: &[u16],
    scratch: &mut [u16],
) -> Option<usize>
    requires { let x = cells.now in let s = scratch.old in Sizes n m to known s × (u ≤ to) × (plain ≡ true → Begun mask n m to known last x s) }
    ensures { let x = cells.now in let s = scratch.old in let t = scratch.new in
        Kept n s t × IfSome result (λ r. (r ≤ 1024) × (plain ≡ true) × Joins mask n m u to x s t r) }
{
    if !plain {
        return None;
    }
    if known > 0 {
        let lost = leaders::join(mask, n, m, u, to, known, last, cells, scratch);
        if lost <= 1024 {
            return Some(lost);
        }
    }
    join_anew(mask, n, m, u, to, last, cells, scratch)
}

// The classes of a level: by the table of leaders, or else by splits. Answers how many places below u lead no more, if that is known.
fn group(
    plain: bool,
    top: bool,
    mask: u32,
    n: usize,
    m: usize,
    u: usize,
    to: usize,
    known: usize,
    last: usize,
    cells: &[u16],
    marks: &[u8],
    scratch: &mut [u16],
) -> Option<usize>
    requires { let x = cells.now in let s = scratch.old in Given n (values_by top mask n m to x marks.now s) x s × (known ≤ to) × (u ≤ to) × (plain ≡ true → Begun mask n m to known last x s) }
    ensures { Grouped plain top mask n m u to cells.now marks.now scratch.old scratch.new (unwrap_or result 1025) × IfSome result (λ r. r ≤ 1024) }
{
    if let Some(lost) = join_leaders(plain, mask, n, m, u, to, known, last, cells, scratch) {
        return Some(lost);
    }
    classes::settle(top, mask, n, m, to, cells, marks, scratch);
    None
}

// Where the sweep stands after a level: the u rows kept before it are in the table of leaders, if that was used.
fn standing(
    place: usize,
    kept: usize,
    level: usize,
    rest: bool,
    lost: Option<usize>,
    u: usize,
) -> Stand
    requires { IfSome lost (λ x. x ≤ 1024) }
    ensures { (result.place ≡ place) × (result.kept ≡ kept) × (result.level ≡ level) × (result.rest ≡ rest)
        × Tells u level rest (unwrap_or lost 1025) result.known result.last }
{
    let known = if lost.is_some() { u } else { 0 };
    // Where no value has changed, the last change is put above all levels.
    let last = if rest { 65536 } else { level };
    Stand {
        place,
        kept,
        level,
        rest,
        known,
        last,
    }
}

// One level: the rows up to place j of the order come in behind those kept so far.
fn any_level(
    k: usize,
    mask: u32,
    n: usize,
    m: usize,
    start: usize,
    cells: &[u16],
    marks: &[u8],
    scratch: &mut [u16],
    plain: bool,
    level: usize,
    j: usize,
    x: Stand,
) -> Stand
    requires { let T = table_of n m start cells.now marks.now in let E = events_of (weight_by mask) T in
        Fits T k scratch.old × Before E (machine T) k level x.place j x.kept scratch.old
        × (level ≤ 65535) × (plain ≡ true → Stays E (machine T) × (0 < level)) × Tabled mask T x.kept x.known x.last scratch.old }
    ensures { let T = table_of n m start cells.now marks.now in let E = events_of (weight_by mask) T in
        After E (machine T) k level j scratch.old scratch.new result.kept result.rest
        × (result.place ≡ j) × (result.level ≡ level) × Tabled mask T result.kept result.known result.last scratch.new }
{
    let u = x.kept;
    let more = j - x.place;
    append(scratch, n, u, x.place, more);
    let top = level == 0;
    let lost = group(
        plain,
        top,
        mask,
        n,
        m,
        u,
        u + more,
        x.known,
        x.last,
        cells,
        marks,
        scratch,
    );
    let rest = renew(scratch, n, u, level, lost);
    let kept = take_new(scratch, n, u, more);
    standing(j, kept, level, rest, lost, u)
}

// Level 0, with all rows that need no more. Rows that have not come in have the value 0.
fn first_level(
    k: usize,
    mask: u32,
    n: usize,
    m: usize,
    start: usize,
    cells: &[u16],
    marks: &[u8],
    scratch: &mut [u16],
    count: usize,
) -> Stand
    requires { let T = table_of n m start cells.now marks.now in let E = events_of (weight_by mask) T in let M = machine T in
        Fits T k scratch.old × Laid E M 0 scratch.old × (count ≡ length (order E M)) }
    ensures { let T = table_of n m start cells.now marks.now in let E = events_of (weight_by mask) T in
        Apart n scratch.old scratch.new
        × Going E (machine T) k result.level result.place result.kept result.rest scratch.new
        × (result.level ≡ 0) × (result.known ≡ 0) }
{
    scratch::clear(scratch, 2 * n, 3 * n);
    let j = until(scratch, n, k, 0, count, 0);
    let none = standing(0, 0, 0, false, None, 0);
    let made = any_level(
        k, mask, n, m, start, cells, marks, scratch, false, 0, j, none,
    );
    standing(j, made.kept, 0, false, None, 0)
}

// Whether row q has a lead, and event a leads to another row.
fn leaves(m: usize, cells: &[u16], scratch: &[u16], q: usize, a: usize) -> bool
    requires { (q < length scratch.now) × (q * m + a < length cells.now) }
    ensures { result ≡ false → (lead_in scratch.now q ≡ 0 → ⊥) → get_or cells.now (q * m + a) 0 ≡ q }
{
    scratch[q] != 0 && cells[q * m + a] as usize != q
}

// Whether event a counts, or stays on every row that has a lead.
fn stays(mask: u32, n: usize, m: usize, cells: &[u16], scratch: &[u16], a: usize) -> bool
    requires { Staying n m cells.now scratch.now × (a < m) }
    ensures { result ≡ true → StaysAt mask n m cells.now scratch.now a }
{
    if weights::weight(mask, a as u16) == 1 {
        return true;
    }
    for q in 0..n {
        if leaves(m, cells, scratch, q, a) {
            return false;
        }
    }
    true
}

// Whether every idle event stays on every row that has a lead.
fn all_stay(mask: u32, n: usize, m: usize, cells: &[u16], scratch: &[u16]) -> bool
    requires { Staying n m cells.now scratch.now }
    ensures { result ≡ true → (a : ℕ) → a < m → StaysAt mask n m cells.now scratch.now a }
{
    for a in 0..m {
        if !stays(mask, n, m, cells, scratch, a) {
            return false;
        }
    }
    true
}

// The next level.
fn next_level(
    k: usize,
    mask: u32,
    n: usize,
    m: usize,
    start: usize,
    cells: &[u16],
    marks: &[u8],
    scratch: &mut [u16],
    count: usize,
    plain: bool,
    x: Stand,
) -> Stand
    requires { let T = table_of n m start cells.now marks.now in let E = events_of (weight_by mask) T in let M = machine T in
        Fits T k scratch.old × Going E M k x.level x.place x.kept x.rest scratch.old
        × (count ≡ length (order E M)) × (x.place < count) × (plain ≡ true → Stays E M) × Tabled mask T x.kept x.known x.last scratch.old }
    ensures { let T = table_of n m start cells.now marks.now in let E = events_of (weight_by mask) T in
        Apart n scratch.old scratch.new
        × Going E (machine T) k result.level result.place result.kept result.rest scratch.new
        × (x.level < result.level) × (x.level < k) × Tabled mask T result.kept result.known result.last scratch.new }
{
    let i = x.place;
    let level = next(scratch, n, k, i, x.level, x.rest);
    let j = until(scratch, n, k, i, count, level);
    any_level(
        k, mask, n, m, start, cells, marks, scratch, plain, level, j, x,
    )
}

// Level after level, until all rows have been taken.
fn fold_all(
    k: usize,
    mask: u32,
    n: usize,
    m: usize,
    start: usize,
    cells: &[u16],
    marks: &[u8],
    scratch: &mut [u16],
    count: usize,
)
    requires { let T = table_of n m start cells.now marks.now in let E = events_of (weight_by mask) T in let M = machine T in
        Fits T k scratch.old × Laid E M 0 scratch.old × (count ≡ length (order E M)) }
    ensures { let T = table_of n m start cells.now marks.now in let E = events_of (weight_by mask) T in
        Folded E (machine T) k scratch.old scratch.new }
{
    let plain = all_stay(mask, n, m, cells, scratch);
    let mut x = first_level(k, mask, n, m, start, cells, marks, scratch, count);
    while x.place < count {
        x = next_level(k, mask, n, m, start, cells, marks, scratch, count, plain, x);
    }
}

// An offset as a number of events: none is taken as twice the rows.
fn far(offset: Option<u16>, n: usize) -> usize
    requires { n ≤ 1024 }
    ensures { (result ≡ far_of n (offset_of offset)) × (result ≤ 65535) }
{
    match offset {
        Some(k) => k as usize,
        None => 2 * n,
    }
}

// The row at the label of row q; 0 where it has no lead.
#[tactic(auto, unfolding(crate::specs::Parts::fold_at))]
fn fold_of(scratch: &[u16], n: usize, q: usize) -> u16
    requires { Labels n scratch.now × (q < n) }
    ensures { result ≡ fold_at n scratch.now q }
{
    if scratch[q] == 0 {
        return 0;
    }
    scratch[3 * n + scratch[n + q] as usize]
}

// In place of the values, the rows at the labels: into which given row each row folds.
fn name_folds(scratch: &mut [u16], n: usize)
    requires { Labels n scratch.old }
    ensures { let s = scratch.old in Valued n n (fold_at n s) s scratch.new }
{
    for q in 0..n {
        scratch[2 * n + q] = fold_of(scratch, n, q);
    }
}

// Into which row each row of a table folds, at an offset and with the weights of events by a mask; answers whether the table is valid and there is room.
pub fn fold_rows(
    offset: Option<u16>,
    mask: u32,
    rows: usize,
    events: usize,
    start: usize,
    cells: &[u16],
    marks: &[u8],
    scratch: &mut [u16],
) -> bool
    ensures { let T = table_of rows events start cells.now marks.now in let E = events_of (weight_by mask) T in
        let s = scratch.old in let t = scratch.new in
        (result ≡ workable_in few_cells T (length s))
        × (result ≡ true → Folds E (machine T) (offset_of offset) t)
        × (result ≡ false → t ≡ s)
        × (length t ≡ length s)
        × ((i : ℕ) → few_cells rows ≤ i → get_or t i 0 ≡ get_or s i 0) }
{
    if !quick_depths::depths(mask, rows, events, start, cells, marks, scratch) {
        return false;
    }
    let count = buckets::order(scratch, rows);
    let k = far(offset, rows);
    fold_all(k, mask, rows, events, start, cells, marks, scratch, count);
    name_folds(scratch, rows);
    true
}

// How far each row of a table is from the rows before it, with the weights of events by a mask; answers whether the table is valid and there is room.
pub fn find_apart(
    mask: u32,
    rows: usize,
    events: usize,
    start: usize,
    cells: &[u16],
    marks: &[u8],
    scratch: &mut [u16],
) -> bool
    ensures { let T = table_of rows events start cells.now marks.now in let E = events_of (weight_by mask) T in
        let s = scratch.old in let t = scratch.new in
        (result ≡ workable_in few_cells T (length s))
        × (result ≡ true → Aparts E (machine T) 0 t)
        × (result ≡ false → t ≡ s)
        × (length t ≡ length s)
        × ((i : ℕ) → few_cells rows ≤ i → get_or t i 0 ≡ get_or s i 0) }
{
    if !quick_depths::depths(mask, rows, events, start, cells, marks, scratch) {
        return false;
    }
    let count = buckets::order(scratch, rows);
    parting::part_all(mask, rows, events, start, cells, marks, scratch, count);
    parting::name_apart(scratch, rows);
    true
}
