#![tactic(auto)]
// `sheet`: reads a mask of the events that count and an image from standard input, and prints the row counts of its table at every offset, or the refusal.
ghost use Rattle.sheet_desk.specs.Printed.{printed};

use std::io;

// The text is made by `sheet_desk`; there is room for all of it (`short` in crates/sheet_desk/proofs/Short.antt).
struct Sheet;

impl filters::Desk for Sheet {
    ghost printed = { printed };

    fn write(input: &[u8], out: &mut [u8]) -> usize {
        sheet_desk::write_sheet_text(input, out)
    }
}

fn main(rt: HostRuntime) -> io::Result<()> {
    filters::run::<Sheet, _, _>("sheet: standard input", &mut rt.stdin(), &mut rt.stdout())
}
