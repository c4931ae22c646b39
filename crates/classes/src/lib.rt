#![tactic(auto)]
// The classes of a level among the rows at hand: from one class by splits that keep like rows together, until no row is unlike the first of its class.
ghost use Rattle.std.specs.Prelude.{◌≡◌, true, false, [], ◌⊎◌, ℕ, ◌+◌, ◌*◌, ◌≤◌, ◌<◌, eqb, length, get_or, IfSome, MatchOption};
ghost use Rattle.tables.specs.Table.{mark_of};
ghost use Rattle.scratch.specs.Tests.{Tested};
ghost use Rattle.splitting.specs.Places.{front, nxt_at, key_at, jump_at, Filled, Span, Canon, Room, Ready};
ghost use Rattle.classes.specs.Values.{row_in, target_in, place_in, lead_to, outer_by, values_by, value, Alike, Stable, Sizes, Reads, Given};
ghost use Rattle.classes.specs.Steps.{Round, Differs, Fault, Begun, Refined, Keyed, Goes, Part, Parts, Spared, Traced, Doubled, Leaps, Settled, row_of, led_by, values_of, Sized, Readable, AllReadable};

// A level among the rows at hand: whether it is the top one, the mask that tells outer events from inner ones, the numbers of rows, of events and of rows at hand, and the table.
#[derive(Clone, Copy)]
struct Level<'a> {
    top: bool,
    mask: u32,
    n: usize,
    m: usize,
    to: usize,
    cells: &'a [u16],
    marks: &'a [u8],
}

// What tells two rows apart: an event, or at the top level their marks.
#[derive(Clone, Copy)]
enum Difference {
    Event(usize),
    Marks,
}

// The place that has turn k where turns begin at a place and go round.
fn turn(from: usize, k: usize, to: usize) -> usize
    requires { (from ≤ to) × (k < to) × (to ≤ 1024) }
    ensures { (result < to) × Round from to k result }
{
    if from + k < to {
        from + k
    } else {
        from + k - to
    }
}

// Keys: what stands from cell `from` on, at the places to which the jumps lead.
fn by_jump(scratch: &mut [u16], n: usize, to: usize, from: usize)
    requires span { Span n (6 * n) to scratch.old × ((from + to ≤ 6 * n) ⊎ (7 * n ≤ from)) × (from + to ≤ 12 * n) }
    requires to_le_n { (to ≤ n) × ((i : ℕ) → i < to → jump_at n scratch.old i < to) }
    ensures { let s = scratch.old in Filled n (6 * n) to (λ i. get_or s (from + jump_at n s i) 0) s scratch.new }
{
    for i in 0..to {
        let jump = scratch[7 * n + i] as usize;
        scratch[6 * n + i] = scratch[from + jump];
    }
}

// Jumps: the keys.
fn back(scratch: &mut [u16], n: usize, to: usize)
    requires { Span n (7 * n) to scratch.old × (to ≤ n) }
    ensures { let s = scratch.old in Filled n (7 * n) to (key_at n s) s scratch.new }
{
    scratch.copy_within(6 * n..6 * n + to, 7 * n);
}

// Makes the jump twice as far and splits by it; answers how many leaders that made.
fn double(scratch: &mut [u16], n: usize, to: usize, size: usize) -> usize
    requires { Ready n to size scratch.old × ((i : ℕ) → i < to → jump_at n scratch.old i < to) }
    ensures { Doubled n to scratch.old scratch.new result }
{
    by_jump(scratch, n, to, 7 * n);
    back(scratch, n, to);
    by_jump(scratch, n, to, 4 * n);
    splitting::split(scratch, n, to, size)
}

// Splits by the jump, and by the jump twice, four times, .. as far, while that makes no fewer leaders than before; answers how many it made.
// A long chain takes so few passes.
fn leap(scratch: &mut [u16], n: usize, to: usize, size: usize) -> usize
    requires { Ready n to size scratch.old × ((i : ℕ) → i < to → jump_at n scratch.old i < to) }
    ensures { Leaps n to scratch.old scratch.new result }
{
    by_jump(scratch, n, to, 4 * n);
    let mut before = 1;
    let mut more = splitting::split(scratch, n, to, size);
    let mut made = more;
    while before <= more {
        before = more;
        more = double(scratch, n, to, size);
        made += more;
    }
    made
}

// How many splits in turn have made few leaders.
fn again(poor: usize, made: usize) -> usize
    requires { poor ≤ 1024 }
    ensures { result ≤ poor + 1 }
{
    if 8 < made { 0 } else { poor + 1 }
}

// The size of the table: a power of 2, twice the places if there is room.
fn table_size(n: usize, to: usize) -> usize
    requires { (0 < to) × (to ≤ n) × (n ≤ 1024) }
    ensures { (0 < result) × (result ≤ 3 * n) }
{
    let size = (2 * to).next_power_of_two();
    if size <= 3 * n { size } else { size / 2 }
}

// Whether `count` cells are below a bound. There is no way out of the loop, so that it runs on many cells at a time.
fn below(cells: &[u16], from: usize, count: usize, bound: usize) -> bool
    requires { from + count ≤ length cells.now }
    ensures { result ≡ true → (i : ℕ) → i < count → get_or cells.now (from + i) 0 < bound }
{
    let mut most = 0;
    for x in &cells[from..from + count] {
        most = most.max(*x);
    }
    (most as usize) < bound
}

// Whether one class alone is split next: where few places are left to be led, and mostly where so many splits in turn have made few leaders.
fn narrow(left: usize, poor: usize) -> bool {
    left < 4 || (4 <= poor && !poor.is_power_of_two())
}

impl<'a> Level<'a> {
    // The place that stands for the target of row q at an event.
    fn place_of(&self, scratch: &[u16], q: usize, a: usize) -> usize
        requires { let L = self.now in (q * L.m + a < length L.cells.now) × (target_in L.m L.cells.now q a < L.n) × (4 * L.n ≤ length scratch.now) }
        ensures { let L = self.now in result ≡ place_in L.n L.m L.cells.now (front L.n scratch.now) q a }
    {
        let target = self.cells[q * self.m + a] as usize;
        scratch[2 * self.n + target] as usize
    }

    // Whether an event is an outer one.
    fn is_outer(&self, a: usize) -> bool
        requires { a < 32 }
        ensures { result ≡ outer_by self.now.top self.now.mask a }
    {
        !self.top && weights::weight(self.mask, a as u16) == 1
    }

    // Whether an event says the same of rows q and p.
    fn same_at(&self, scratch: &[u16], q: usize, p: usize, a: usize) -> bool
        requires { let L = self.now in let s = scratch.now in Sized L s × Readable L s q × Readable L s p × (a < L.m) }
        ensures { let L = self.now in let s = scratch.now in let W = values_by L.top L.mask L.n L.m L.to L.cells.now [] s in result ≡ eqb (value W (nxt_at L.n s) q a) (value W (nxt_at L.n s) p a) }
    {
        let x = self.place_of(scratch, q, a);
        let y = self.place_of(scratch, p, a);
        if self.is_outer(a) {
            x == y
        } else {
            scratch[4 * self.n + x] == scratch[4 * self.n + y]
        }
    }

    // What tells rows q and p apart: their marks, or else the first event at which they differ.
    fn tell_apart(&self, scratch: &[u16], q: usize, p: usize) -> Option<Difference>
        requires { let L = self.now in let s = scratch.now in Sized L s × Readable L s q × Readable L s p }
        ensures { let L = self.now in let s = scratch.now in let W = values_of L s in MatchOption result (Alike W (nxt_at L.n s) q p) (Differs W (nxt_at L.n s) q p) }
    {
        if self.top && marks::mark(self.marks, q) != marks::mark(self.marks, p) {
            return Some(Difference::Marks);
        }
        for a in 0..self.m {
            if !self.same_at(scratch, q, p, a) {
                return Some(Difference::Event(a));
            }
        }
        None
    }

    // The same of a place and its leader.
    fn fault_at(&self, scratch: &[u16], i: usize) -> Option<Difference>
        requires { let L = self.now in let s = scratch.now in let W = values_of L s in Given L.n W L.cells.now s × Canon L.to (nxt_at L.n s) × (i < L.to) }
        ensures { let L = self.now in let s = scratch.now in let W = values_of L s in MatchOption result (Alike W (nxt_at L.n s) (W.row i) (W.row (nxt_at L.n s i))) (Fault W (nxt_at L.n s) i) }
    {
        let leader = scratch[4 * self.n + i] as usize;
        if leader == i {
            return None;
        }
        self.tell_apart(
            scratch,
            scratch[3 * self.n + i] as usize,
            scratch[3 * self.n + leader] as usize,
        )
    }

    // From a place on, and round to it again, the first one that is unlike its leader, and what tells the two apart.
    fn fault(&self, scratch: &[u16], from: usize) -> Option<(usize, Difference)>
        requires { let L = self.now in let s = scratch.now in let W = values_of L s in Given L.n W L.cells.now s × Canon L.to (nxt_at L.n s) × (from ≤ L.to) }
        ensures { let L = self.now in let s = scratch.now in let W = values_of L s in MatchOption result (Stable W (nxt_at L.n s)) (λ x. (x.0 < L.to) × Fault W (nxt_at L.n s) x.0 x.1) }
    {
        for k in 0..self.to {
            let i = turn(from, k, self.to);
            if let Some(difference) = self.fault_at(scratch, i) {
                return Some((i, difference));
            }
        }
        None
    }

    // Keys: the marks.
    fn by_mark(&self, scratch: &mut [u16])
        requires { let L = self.now in Span L.n (6 * L.n) L.to scratch.old × (L.to ≤ L.n) }
        ensures { let L = self.now in let s = scratch.old in Filled L.n (6 * L.n) L.to (λ i. mark_of L.marks.now (row_of L s i)) s scratch.new }
    {
        for i in 0..self.to {
            let row = scratch[3 * self.n + i] as usize;
            scratch[6 * self.n + i] = marks::mark(self.marks, row) as u16;
        }
    }

    // Keys or jumps, from cell `at` on: the places that stand for the targets at an event.
    fn by_event(&self, scratch: &mut [u16], a: usize, at: usize)
        requires { let L = self.now in let s = scratch.old in Sized L s × AllReadable L s × Span L.n at L.to s × (a < L.m) }
        ensures { let L = self.now in let s = scratch.old in let b = front L.n s in Filled L.n at L.to (λ i. place_in L.n L.m L.cells.now b (row_in L.n b i) a) s scratch.new }
    {
        for i in 0..self.to {
            let row = scratch[3 * self.n + i] as usize;
            scratch[at + i] = self.place_of(scratch, row, a) as u16;
        }
    }

    // The leader of the place to which an event leads from place i.
    fn led_to(&self, scratch: &[u16], i: usize, a: usize) -> usize
        requires { let L = self.now in let s = scratch.now in Sized L s × Readable L s (row_of L s i) × (i < L.to) × (a < L.m) }
        ensures { let s = scratch.now in result ≡ nxt_at self.now.n s (led_by self.now s a i) }
    {
        let row = scratch[3 * self.n + i] as usize;
        scratch[4 * self.n + self.place_of(scratch, row, a)] as usize
    }

    // One place's turn where class c is split in two: those that an event leads to class v, or those that it does not, are led by the first of them.
    fn part_one(
        &self,
        scratch: &mut [u16],
        a: usize,
        c: usize,
        v: usize,
        like: bool,
        i: usize,
        first: Option<usize>,
    ) -> Option<usize>
        requires { let L = self.now in let s = scratch.old in Sized L s × Readable L s (row_of L s i) × (i < L.to) × (a < L.m) × IfSome first (λ j. j < L.to) }
        ensures { let L = self.now in let s = scratch.old in Part L.n i (Goes L.n c v like (led_by L s a) s i) first s scratch.new result }
    {
        if scratch[4 * self.n + i] as usize != c || (self.led_to(scratch, i, a) == v) != like {
            return first;
        }
        let leader = first.unwrap_or(i);
        scratch[4 * self.n + i] = leader as u16;
        Some(leader)
    }

    // Splits class c so, and no other. Where each split needs another event, that is quicker than to split all.
    fn part(&self, scratch: &mut [u16], a: usize, c: usize, v: usize, like: bool)
        requires { let L = self.now in let s = scratch.old in let h = led_by L s a in Sized L s × AllReadable L s × (a < L.m) × Parts L.n L.to c v like h s }
        ensures { let L = self.now in let s = scratch.old in let h = led_by L s a in (i : ℕ) → i < L.to → Goes L.n c v like h s i → Keyed L.n L.to (λ j. nxt_at L.n s (h j)) s scratch.new 1 }
    {
        let mut first = None;
        for i in c..self.to {
            first = self.part_one(scratch, a, c, v, like, i, first);
        }
    }

    // Whether place i alone leads by an event to the class to which it leads: one place is of that class, and stands for one row, which is the target of one row alone.
    // Where events are many that is not worth the look.
    fn sole(&self, scratch: &[u16], a: usize, i: usize) -> bool
        requires { let L = self.now in let s = scratch.now in Sized L s × AllReadable L s × (a < L.m) × (i < L.to) }
        ensures { let L = self.now in let s = scratch.now in let h = led_by L s a in result ≡ true → (j : ℕ) → j < L.to → nxt_at L.n s (h j) ≡ nxt_at L.n s (h i) → j ≡ i }
    {
        if 4 < self.m {
            return false;
        }
        let row = scratch[3 * self.n + i];
        let target = self.cells[row as usize * self.m + a];
        let place = scratch[2 * self.n + target as usize];
        let leader = scratch[4 * self.n + place as usize];
        scratch::once(self.cells, 0, self.n * self.m, target)
            && scratch::once(scratch, 2 * self.n, self.n, place)
            && scratch::once(scratch, 4 * self.n, self.to, leader)
            && scratch::once(scratch, 3 * self.n, self.to, row)
    }

    // Splits the class of a place by an event at which that place is unlike its leader. One of the two leads out of the class, so that the places of the
    // class that lead where it does, or those that do not, can be told apart while they get another leader.
    fn part_at(&self, scratch: &mut [u16], a: usize, i: usize)
        requires { let L = self.now in let s = scratch.old in let h = led_by L s a in Sized L s × AllReadable L s × (a < L.m) × Canon L.to (nxt_at L.n s) × (i < L.to) × (nxt_at L.n s (h i) ≡ nxt_at L.n s (h (nxt_at L.n s i)) → ⊥) }
        ensures { let L = self.now in let s = scratch.old in let h = led_by L s a in Keyed L.n L.to (λ j. nxt_at L.n s (h j)) s scratch.new 1 }
    {
        if self.sole(scratch, a, i) {
            scratch[4 * self.n + i] = i as u16;
            return;
        }
        let c = scratch[4 * self.n + i] as usize;
        let v = self.led_to(scratch, i, a);
        if v != c {
            self.part(scratch, a, c, v, true);
            return;
        }
        let w = self.led_to(scratch, c, a);
        self.part(scratch, a, c, w, false);
    }

    // At a place that is unlike its leader: splits by that at which they differ, one class alone or all; answers how many leaders that made.
    fn refine(
        &self,
        scratch: &mut [u16],
        size: usize,
        i: usize,
        difference: Difference,
        one: bool,
    ) -> usize
        requires { let L = self.now in let s = scratch.old in let W = values_of L s in Begun L.n W L.cells.now s × Room L.n L.to size s × (i < L.to) × Fault W (nxt_at L.n s) i difference }
        ensures { let s = scratch.old in let W = values_of self.now s in Refined self.now.n W s scratch.new result }
    {
        match difference {
            Difference::Marks => {
                self.by_mark(scratch);
                splitting::split(scratch, self.n, self.to, size)
            }
            Difference::Event(a) if self.is_outer(a) => {
                self.by_event(scratch, a, 6 * self.n);
                splitting::split(scratch, self.n, self.to, size)
            }
            Difference::Event(a) if one => {
                self.part_at(scratch, a, i);
                1
            }
            Difference::Event(a) => {
                self.by_event(scratch, a, 7 * self.n);
                leap(scratch, self.n, self.to, size)
            }
        }
    }

    // Hints, in region 8: of each place to which place i leads, that it does, as i + 1.
    fn trace(&self, scratch: &mut [u16], i: usize)
        requires { let L = self.now in let s = scratch.old in Sized L s × Readable L s (row_of L s i) × (i < L.to) }
        ensures { Spared self.now.n scratch.old scratch.new }
    {
        let row = scratch[3 * self.n + i] as usize;
        for a in 0..self.m {
            scratch[8 * self.n + self.place_of(scratch, row, a)] = (i + 1) as u16;
        }
    }

    // The same of all places at hand, from the last on, so that the first that leads to a place stands there. At the top level alone, and not before hints are needed.
    fn trace_all(&self, scratch: &mut [u16], poor: usize)
        requires { let s = scratch.old in Sized self.now s × AllReadable self.now s }
        ensures { Traced self.now.n self.now.top scratch.old scratch.new }
    {
        if !self.top || poor != 4 {
            return;
        }
        for i in (0..self.to).rev() {
            self.trace(scratch, i);
        }
    }

    // Where to look first for the next fault, when place i has got another leader: at a place that leads to it. It is a guess, and all places are looked at if need be.
    fn hint(&self, scratch: &[u16], i: usize, poor: usize) -> usize
        requires { let L = self.now in (L.n ≤ 1024) × (12 * L.n ≤ length scratch.now) × (i < L.n) }
        ensures { result ≤ self.now.to }
    {
        if !self.top || poor < 4 {
            return 0;
        }
        let hinted = scratch[8 * self.n + i] as usize;
        if hinted <= self.to {
            hinted.saturating_sub(1)
        } else {
            0
        }
    }

    // Refines until no place is unlike its leader.
    fn mend(&self, scratch: &mut [u16], size: usize)
        requires { let L = self.now in let s = scratch.old in let W = values_of L s in Begun L.n W L.cells.now s × Room L.n L.to size s }
        ensures { let s = scratch.old in let W = values_of self.now s in Settled self.now.n W s scratch.new }
    {
        let mut left = self.to;
        let mut poor = 0;
        let mut from = 0;
        while let Some((i, difference)) = self.fault(scratch, from) {
            let one = narrow(left, poor);
            let made = self.refine(scratch, size, i, difference, one);
            left -= made;
            poor = again(poor, made);
            self.trace_all(scratch, poor);
            from = self.hint(scratch, i, poor);
        }
    }

    // Whether the numbers of rows, events and places, and the lent cells, fit together.
    fn sized(&self, scratch: &[u16]) -> bool
        ensures { Tested result (Sized self.now scratch.now) }
    {
        self.n <= 1024
            && 12 * self.n <= scratch.len()
            && self.to <= self.n
            && self.m <= 32
            && self.n * self.m <= self.cells.len()
    }

    // Whether row q and its targets are rows, and what stands for the targets are places at hand.
    fn readable(&self, scratch: &[u16], q: usize) -> bool
        requires { Sized self.now scratch.now }
        ensures { Tested result (Readable self.now scratch.now q) }
    {
        if self.n <= q {
            return false;
        }
        for a in 0..self.m {
            if self.n <= self.cells[q * self.m + a] as usize
                || self.to <= self.place_of(scratch, q, a)
            {
                return false;
            }
        }
        true
    }

    // Whether that is so of all rows at hand.
    fn all_readable(&self, scratch: &[u16]) -> bool
        requires { Sized self.now scratch.now }
        ensures { Tested result (AllReadable self.now scratch.now) }
    {
        for i in 0..self.to {
            if !self.readable(scratch, scratch[3 * self.n + i] as usize) {
                return false;
            }
        }
        true
    }

    // The same of all rows at hand. Mostly all cells of the table are rows and all values places at hand, which is soon seen.
    fn at_hand(&self, scratch: &[u16]) -> bool
        requires { Sized self.now scratch.now }
        ensures { Tested result (AllReadable self.now scratch.now) }
    {
        if below(self.cells, 0, self.n * self.m, self.n)
            && below(scratch, 2 * self.n, self.n, self.to)
            && below(scratch, 3 * self.n, self.to, self.n)
        {
            return true;
        }
        self.all_readable(scratch)
    }
}

// The classes of a level among the rows at hand: the leader of each place, from 4 * n on. Where the rows at hand cannot be read it changes nothing.
pub fn settle(
    top: bool,
    mask: u32,
    n: usize,
    m: usize,
    to: usize,
    cells: &[u16],
    marks: &[u8],
    scratch: &mut [u16],
)
    ensures { let x = cells.now in let s = scratch.old in let t = scratch.new in let W = values_by top mask n m to x marks.now s in (Given n W x s → Settled n W s t) × ((Given n W x s → ⊥) → t ≡ s) }
{
    let level = Level {
        top,
        mask,
        n,
        m,
        to,
        cells,
        marks,
    };
    if !level.sized(scratch) || !level.at_hand(scratch) {
        return;
    }
    if to == 0 {
        return;
    }
    scratch::clear(scratch, 4 * n, 4 * n + to);
    let size = table_size(n, to);
    level.mend(scratch, size);
}
