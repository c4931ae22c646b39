#![tactic(auto)]
// What programs print with: the lines of the test programs, put into a lent buffer from a place on as `text` puts their parts, and the call that prints a buffer.
ghost use Rattle.std.specs.Prelude.{◌≡◌, ◌++◌, min, length, take, IfOk, OnOk};
ghost use Rattle.std.specs.Io.KnownBytes.{Appends};
ghost use Rattle.text.specs.Text.{text, decimal, Puts};
ghost use Rattle.printing.specs.Lines.{line};

use std::io;
use std::io::Write;
use text::{put_byte, put_number, put_text};

// A number after a space.
fn put_spaced(out: &mut [u8], at: usize, n: usize) -> usize
    ensures { Puts out.old at (text " " ++ decimal n) out.new result }
{
    let next = put_byte(out, at, b' ');
    put_number(out, next, n)
}

// A word and numbers.
pub fn put_line(out: &mut [u8], at: usize, word: &[u8], numbers: &[usize]) -> usize
    ensures { Puts out.old at (line word.now numbers.now) out.new result }
{
    let mut next = put_text(out, at, word);
    for number in numbers {
        next = put_spaced(out, next, *number);
    }
    put_byte(out, next, b'\n')
}

// The numbers of cells.
pub fn put_cells(out: &mut [u8], at: usize, cells: &[u16]) -> usize
    ensures { Puts out.old at (line (text "cells") cells.now) out.new result }
{
    let mut next = put_text(out, at, b"cells");
    for cell in cells {
        next = put_spaced(out, next, *cell as usize);
    }
    put_byte(out, next, b'\n')
}

// Writes the first n bytes of a buffer, as far as there are so many, and answers how many that are. A write that fails is an error.
pub fn print<W: Write>(to: &mut W, out: &[u8], n: usize) -> io::Result<usize>
    ensures count { IfOk result (λ k. k ≡ min n (length out.now)) }
    ensures written { OnOk result (Appends (W.contents to.old) (W.contents to.new) (take (min n (length out.now)) out.now)) }
{
    let count = n.min(out.len());
    to.write_all(&out[..count])?;
    Ok(count)
}
