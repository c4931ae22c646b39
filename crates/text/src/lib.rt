#![tactic(auto)]
// Text as bytes in a lent buffer. Each function writes from a place on, as far as there is room, and answers the place after what it wrote.
ghost use Rattle.std.specs.Prelude.{[], ◌∷◌};
ghost use Rattle.text.specs.Text.{decimal, Puts};

// Writes a byte.
pub fn put_byte(out: &mut [u8], at: usize, byte: u8) -> usize
    ensures { Puts out.old at (byte ∷ []) out.new result }
{
    if at < out.len() {
        out[at] = byte;
        return at + 1;
    }
    at
}

// Writes words.
pub fn put_text(out: &mut [u8], at: usize, words: &[u8]) -> usize
    ensures { Puts out.old at words.now out.new result }
{
    let mut next = at;
    for byte in words {
        next = put_byte(out, next, *byte);
    }
    next
}

// Writes a number in decimal digits.
pub fn put_number(out: &mut [u8], at: usize, n: usize) -> usize
    ensures { Puts out.old at (decimal n) out.new result }
{
    if n < 10 {
        return put_byte(out, at, 48 + n as u8);
    }
    let next = put_number(out, at, n / 10);
    put_byte(out, next, 48 + (n % 10) as u8)
}

// Writes a 16-bit number.
pub fn put_cell(out: &mut [u8], at: usize, x: u16) -> usize
    ensures { Puts out.old at (decimal x) out.new result }
{
    put_number(out, at, x as usize)
}
