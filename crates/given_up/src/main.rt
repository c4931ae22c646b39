#![tactic(auto)]
// `given_up`: reads an offset, a mask of the events that count and an image from standard input, and prints what each folded row gives up, or the refusal.
ghost use Rattle.loss_desk.specs.Printed.{printed};

use std::io;

// The text is made by `loss_desk`; there is room for all of it (`short` in crates/loss_desk/proofs/Short.antt).
struct GivenUp;

impl filters::Desk for GivenUp {
    ghost printed = { printed };

    fn write(input: &[u8], out: &mut [u8]) -> usize {
        loss_desk::write_loss_text(input, out)
    }
}

fn main(rt: HostRuntime) -> io::Result<()> {
    filters::run::<GivenUp, _, _>(
        "given_up: standard input",
        &mut rt.stdin(),
        &mut rt.stdout(),
    )
}
