#![tactic(auto)]
// Reduction by levels of nearness: which rows are kept at which offset, and how rows fold level by level. The definitions are in specs/, the laws in proofs/; the
// code reads levels off the cells in which lengths stand.
ghost use Rattle.std.specs.Prelude.{◌≡◌};
ghost use Rattle.levels.specs.Cells.{need_cell, far_cell};

// A length that has no end.
const ENDLESS: u16 = 65535;

// The level that a row needs at an offset, by its lead.
pub fn needed(offset: u16, lead: u16) -> usize
    ensures { result ≡ need_cell offset lead }
{
    if lead == ENDLESS {
        return 0;
    }
    if offset < lead {
        return 0;
    }
    (offset as usize) + 1 - (lead as usize)
}

// How far a row is from the rows before it, by the level at which it lost its lead; 0 if it never did.
pub fn parted(lost: u16) -> u16
    ensures { result ≡ far_cell lost }
{
    if lost == 0 {
        return ENDLESS;
    }
    lost
}
