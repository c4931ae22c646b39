#![tactic(auto)]
// Splitting the classes of places by their keys, in one pass over the places, with a table in which each slot is taken once.
ghost use Rattle.std.specs.Prelude.{◌≡◌, ◌*◌, ◌≤◌, ◌<◌, length};
ghost use Rattle.scratch.specs.Tests.{Tested};
ghost use Rattle.splitting.specs.Places.{nxt_at, slot_of, Canon, Room, Ready, Turning, Turn, Split};

// The slot of a class and a key in a table. Where the size is a power of 2 all slots can be taken.
#[tactic(auto, using(crate::proofs::Splitting::slot_below), unfolding(crate::specs::Places::slot_of))]
fn slot(c: u16, h: u16, size: usize) -> usize
    requires { 0 < size }
    ensures { (result ≡ slot_of c h size) × (result < size) }
{
    ((h as usize * 65536 + c as usize) * 2654435769 / 65536) & (size - 1)
}

// One place's turn: where it has another key than its leader, it goes to the place in the slot of its class and key, or leads and takes that slot.
fn split_one(scratch: &mut [u16], n: usize, i: usize, size: usize) -> bool
    requires { Turning n size i scratch.old }
    ensures { Turn n size i scratch.old scratch.new result }
{
    let c = scratch[4 * n + i];
    let h = scratch[6 * n + i];
    if h == scratch[6 * n + c as usize] {
        return false;
    }
    let at = 9 * n + slot(c, h, size);
    let x = scratch[at];
    if x == 0 {
        scratch[at] = (i + 1) as u16;
        scratch[5 * n + i] = c;
        scratch[4 * n + i] = i as u16;
        return true;
    }
    let y = x - 1;
    if scratch[5 * n + y as usize] == c && scratch[6 * n + y as usize] == h {
        scratch[4 * n + i] = y;
    }
    false
}

// Splits all classes by their keys; answers how many leaders that made.
fn split_all(scratch: &mut [u16], n: usize, to: usize, size: usize) -> usize
    requires { Ready n to size scratch.old }
    ensures { Split n to scratch.old scratch.new result }
{
    scratch::clear(scratch, 9 * n, 9 * n + size);
    let mut made = 0;
    for i in 0..to {
        if split_one(scratch, n, i, size) {
            made += 1;
        }
    }
    made
}

// Whether there is room for all regions, and the table fits.
fn roomy(scratch: &[u16], n: usize, to: usize, size: usize) -> bool
    ensures { Tested result (Room n to size scratch.now) }
{
    n <= 1024 && 12 * n <= scratch.len() && to <= n && 0 < size && size <= 3 * n
}

// Whether the leader of each place leads, and is no later place.
fn canonical(scratch: &[u16], n: usize, to: usize) -> bool
    requires { (n ≤ 1024) × (12 * n ≤ length scratch.now) × (to ≤ n) }
    ensures { Tested result (Canon to (nxt_at n scratch.now)) }
{
    for i in 0..to {
        let l = scratch[4 * n + i] as usize;
        if i < l || scratch[4 * n + l] as usize != l {
            return false;
        }
    }
    true
}

// The same, where there is room for it and each leader leads and is no later place; elsewhere nothing is changed, and no leader made.
pub fn split(scratch: &mut [u16], n: usize, to: usize, size: usize) -> usize
    ensures { let s = scratch.old in let t = scratch.new in (Ready n to size s → Split n to s t result) × ((Ready n to size s → ⊥) → (t ≡ s) × (result ≡ 0)) }
{
    if !roomy(scratch, n, to, size) || !canonical(scratch, n, to) {
        return 0;
    }
    split_all(scratch, n, to, size)
}
