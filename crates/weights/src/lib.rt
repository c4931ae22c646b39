#![tactic(auto)]
// Which events count, by a mask of 32 bits: what an event adds to the length of a run, bits that belong to no event, and how many events count.
ghost use Rattle.std.specs.Prelude.{◌≡◌};
ghost use Rattle.tables.specs.Table.{weight_by};
ghost use Rattle.weights.specs.Weights.{spare_bit_set, counted as counted_of};

// What an event adds to the length of a run.
pub fn weight(mask: u32, event: u16) -> u16
    ensures { result ≡ weight_by mask event }
{
    ((mask >> (event % 32)) & 1) as u16
}

// Whether a bit at or above the event count is set.
#[tactic(auto, using(crate::proofs::Counts::no_spare), unfolding(crate::specs::Weights::spare_bit_set))]
pub fn spare_bit(mask: u32, events: usize) -> bool
    ensures { result ≡ spare_bit_set mask events }
{
    events < 32 && mask >> events != 0
}

// How many of the 32 events that a table can have count: the ones of the mask.
#[tactic(auto, using(crate::proofs::Counts::ones_counted))]
pub fn counted(mask: u32) -> usize
    ensures { result ≡ counted_of mask 32 }
{
    mask.count_ones() as usize
}
