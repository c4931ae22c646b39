#![tactic(auto)]
// The signature of a row: the classes of the level before to which its counted events lead it. Rows of one signature, a key that they share, and whether a class changed
// to which an event leads.
ghost use Rattle.std.specs.Prelude.{◌≡◌, ◌<◌};
ghost use Rattle.scratch.specs.Tests.{Tested};
ghost use Rattle.signatures.specs.Signatures.{class_at, mixed_at, key_of, Says, Signed, Changed};

// The class to which an event leads row q: the value of its target.
fn class_of(n: u16, m: u16, cells: &[u16], scratch: &[u16], q: u16, a: u16) -> u16
    ensures { result ≡ class_at n m cells.now scratch.now q a }
{
    let target = scratch::target(cells, m, q, a);
    scratch::cell(scratch, 2 * n as usize + target as usize)
}

// A key with one event more of row q; idle events leave it.
fn mix(mask: u32, n: u16, m: u16, cells: &[u16], scratch: &[u16], q: u16, a: u16, x: usize) -> usize
    requires { x < 4294967296 }
    ensures { (result ≡ mixed_at mask n m cells.now scratch.now q a x) × (result < 4294967296) }
{
    if weights::weight(mask, a) != 1 {
        return x;
    }
    (x + class_of(n, m, cells, scratch, q, a) as usize + 1) * 739982445 % 4294967296
}

// A number that rows of one signature share.
#[tactic(auto, unfolding(crate::specs::Signatures::mixed_to))]
pub fn key_of(mask: u32, n: u16, m: u16, cells: &[u16], scratch: &[u16], q: u16) -> u16
    ensures { result ≡ key_of mask n m cells.now scratch.now q }
{
    let mut x = 0;
    for a in 0..m {
        x = mix(mask, n, m, cells, scratch, q, a, x);
    }
    (x / 65536) as u16
}

// Whether an event says the same of rows q and p: it is idle, or leads them to one class.
fn same_at(
    mask: u32,
    n: u16,
    m: u16,
    cells: &[u16],
    scratch: &[u16],
    q: u16,
    p: u16,
    a: u16,
) -> bool
    ensures { Tested result (Says mask n m cells.now scratch.now q p a) }
{
    weights::weight(mask, a) != 1
        || class_of(n, m, cells, scratch, q, a) == class_of(n, m, cells, scratch, p, a)
}

// Whether rows q and p have one signature.
pub fn same(mask: u32, n: u16, m: u16, cells: &[u16], scratch: &[u16], q: u16, p: u16) -> bool
    ensures { Tested result (Signed mask n m cells.now scratch.now q p) }
{
    for a in 0..m {
        if !same_at(mask, n, m, cells, scratch, q, p, a) {
            return false;
        }
    }
    true
}

// Whether an event leads row q to a row whose class changed at level `last`. Events in turn that lead to one row are looked at once, and it stands apart, so
// that its loop keeps to registers.
#[inline(never)]
pub fn changed(n: u16, m: u16, cells: &[u16], scratch: &[u16], q: u16, last: usize) -> bool
    ensures { Tested result (Changed n m cells.now scratch.now last q) }
{
    let mut before = None;
    for a in 0..m {
        let target = scratch::target(cells, m, q, a);
        if before != Some(target) {
            if scratch::cell(scratch, 5 * n as usize + target as usize) as usize == last {
                return true;
            }
            before = Some(target);
        }
    }
    false
}
