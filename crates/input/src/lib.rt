#![tactic(auto)]
// Input, for programs that read all of it into a buffer.
ghost use Rattle.std.specs.Prelude.{true, false, Ok, IfSome, ◌≡◌, ◌<◌, ◌≤◌, length, take, IfOk};
ghost use Rattle.std.specs.Io.KnownBytes.{Consumes, IsAtEnd};

use std::io;
use std::io::Read;

// Reads until the buffer is full or the input ends, and answers how many bytes it put at the buffer's start.
pub fn read_full<R: Read>(source: &mut R, buffer: &mut [u8]) -> io::Result<usize>
    ensures within { IfOk result (λ n. n ≤ length buffer.new) }
    ensures bytes { IfOk result (λ n. Consumes (R.remaining source.old) (R.remaining source.new) (take n buffer.new)) }
    ensures end { IfOk result (λ n. n < length buffer.new → IsAtEnd (R.remaining source.new)) }
{
    let mut done = 0;
    while done < buffer.len() {
        let n = source.read(&mut buffer[done..])?;
        if n == 0 {
            return Ok(done);
        }
        done += n;
    }
    Ok(done)
}

// Whether the input is at its end.
fn at_end<R: Read>(source: &mut R) -> io::Result<bool>
    ensures end { IfOk result (λ ended. ended ≡ true → IsAtEnd (R.remaining source.new)) }
    ensures more { IfOk result (λ ended. ended ≡ false → IfSome (R.remaining source.old) (λ xs. 0 < length xs)) }
{
    let mut one = [0u8; 1];
    let n = source.read(&mut one)?;
    Ok(n == 0)
}

// Whether the n bytes that were read are all that the buffer takes: they fill it, or the input is at its end.
pub fn all_read<R: Read>(source: &mut R, n: usize, room: usize) -> io::Result<bool>
    ensures full { room ≤ n → result ≡ Ok true }
    ensures end { n < room → IfOk result (λ all. all ≡ true → IsAtEnd (R.remaining source.new)) }
    ensures more { IfOk result (λ all. all ≡ false → IfSome (R.remaining source.old) (λ xs. 0 < length xs)) }
{
    if n < room {
        return at_end(source);
    }
    Ok(true)
}
