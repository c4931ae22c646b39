#![tactic(auto)]
// The run that the cells of scratch tell of two rows, followed from one first event to the next.
ghost use Rattle.std.specs.Prelude.{◌≡◌, length};
ghost use Rattle.text.specs.Text.{filled};
ghost use Rattle.walks.specs.Walks.{walked};

use chosen::First;

// Writes the run from two rows, at most so many events as there are rows, as far as there is room; answers how many events it has.
pub fn walk(
    rows: u16,
    events: u16,
    cells: &[u16],
    scratch: &[u16],
    q: u16,
    p: u16,
    run: &mut [u8],
) -> usize
    ensures { let w = walked cells.now events scratch.now rows q p in
        (result ≡ length w)
        × (run.new ≡ filled run.old w) }
{
    let starts = row_starts::table();
    let mut at = 0;
    let mut i = q;
    let mut j = p;
    for count in 0..rows {
        let First::Event(event) = measures::between(&starts, scratch, i, j).first else {
            return count as usize;
        };
        at = text::put_byte(run, at, event as u8);
        i = scratch::target(cells, events, i, event);
        j = scratch::target(cells, events, j, event);
    }
    rows as usize
}
