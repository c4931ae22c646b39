#![tactic(auto)]
// What is known of two rows, in one cell: how far they are apart, and how their chosen run begins.
ghost use Rattle.std.specs.Prelude.{◌≡◌};
ghost use Rattle.pairs.specs.Pairs.{start_in, pair_from};
ghost use Rattle.measures.specs.Measures.{begin_in, measure_in};

use chosen::First;

// The distance of two rows, 65,535 if it is endless, and, where it is finite and above 0, the first event of their chosen run or its end.
#[derive(Clone, Copy)]
pub struct Measure {
    pub distance: u16,
    pub first: First,
}

// How a run begins, from the number that stands for it: an event, or 32 for the end.
#[tactic(auto, unfolding(crate::specs::Measures::begin_in))]
fn begin(number: u16) -> First
    ensures { result ≡ begin_in number }
{
    match number {
        32 => First::End,
        event => First::Event(event),
    }
}

// What a cell says.
#[tactic(auto, unfolding(crate::specs::Measures::measure_in))]
pub fn read(cell: u16) -> Measure
    ensures { result ≡ measure_in cell }
{
    match cell {
        0..1056 | 65535 => Measure {
            distance: cell,
            first: First::Unsettled,
        },
        _ => Measure {
            distance: cell / 33 - 31,
            first: begin(cell % 33),
        },
    }
}

// What the cell of two rows says.
pub fn between(starts: &[u32], scratch: &[u16], q: u16, p: u16) -> Measure
    ensures { result ≡ measure_in (pair_from (start_in starts.now) scratch.now q p) }
{
    read(pairs::pair(starts, scratch, q, p))
}
