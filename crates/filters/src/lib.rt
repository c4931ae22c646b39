#![tactic(auto)]
// What the desk programs share: all of the input is read, its text is made, and the text is printed.
ghost use Rattle.std.specs.Prelude.{◌≡◌, List, ℕ, min, length, OnOk};
ghost use Rattle.text.specs.Text.{filled};
ghost use Rattle.filters.specs.Filters.{Filters};

use std::io;
use std::io::{Read, Write};

// A program that makes one text of all its input.
pub trait Desk {
    // The text for an input.
    ghost printed: { List ℕ → List ℕ };

    // Writes the text as far as there is room, and answers how many bytes that are.
    fn write(input: &[u8], out: &mut [u8]) -> usize
        ensures text { out.new ≡ filled out.old (printed input.now) }
        ensures count { result ≡ min (length (printed input.now)) (length out.old) };
}

// Runs a desk program between a reader and a writer; a failure to read is told by the name. Input that fills the buffer is longer than any sound one, and is
// refused whatever follows.
pub fn run<D: Desk, R: Read, W: Write>(
    name: &'static str,
    source: &mut R,
    to: &mut W,
) -> io::Result<()>
    ensures { OnOk result (Filters D.printed (R.remaining source.old) (W.contents to.old) (W.contents to.new)) }
{
    let mut input = [0u8; 65536];
    let n = input::read_full(source, &mut input)?;
    if !input::all_read(source, n, input.len())? {
        return Err(io::Error::other(name));
    }
    let mut out = [0u8; 65536];
    let length = D::write(&input[..n], &mut out);
    printing::print(to, &out, length)?;
    Ok(())
}
