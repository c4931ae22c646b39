#![tactic(auto)]
// `reduce`: reads an offset, a mask of the events that count and an image from standard input, and prints the listing of the reduced table, or the refusal.
ghost use Rattle.desk.specs.Printed.{printed};

use std::io;

// The text is made by `desk`; there is room for all of it (`short` in crates/desk/proofs/Short.antt).
struct Reduce;

impl filters::Desk for Reduce {
    ghost printed = { printed };

    fn write(input: &[u8], out: &mut [u8]) -> usize {
        desk::write_text(input, out)
    }
}

fn main(rt: HostRuntime) -> io::Result<()> {
    filters::run::<Reduce, _, _>("reduce: standard input", &mut rt.stdin(), &mut rt.stdout())
}
