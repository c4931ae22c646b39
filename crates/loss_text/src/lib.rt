#![tactic(auto)]
// The line that says what is given up where a row is folded, in a lent buffer.
ghost use Rattle.std.specs.Prelude.{◌++◌, length};
ghost use Rattle.text.specs.Text.{decimal, joined, Puts};
ghost use Rattle.loss_text.specs.LossText.{event_word, loss_line};

use text::{put_byte, put_cell, put_number, put_text};

// Writes the events of a run, each after a space.
fn put_events(out: &mut [u8], at: usize, run: &[u8]) -> usize
    ensures { let l = run.now in
        Puts out.old at (joined (length l) (event_word l)) out.new result }
{
    let mut next = at;
    for event in run {
        let spaced = put_byte(out, next, b' ');
        next = put_number(out, spaced, *event as usize);
    }
    next
}

// Writes a word and a number.
fn put_named(out: &mut [u8], at: usize, word: &[u8], number: usize) -> usize
    ensures { Puts out.old at (word.now ++ decimal number) out.new result }
{
    let worded = put_text(out, at, word);
    put_number(out, worded, number)
}

// Writes the line of a folded row: the row that it folds into, their distance, and the chosen run.
pub fn put_loss(
    out: &mut [u8],
    at: usize,
    row: u16,
    into: u16,
    distance: usize,
    run: &[u8],
) -> usize
    ensures { Puts out.old at (loss_line row into distance run.now) out.new result }
{
    let numbered = put_cell(out, at, row);
    let folded = put_named(out, numbered, b" folded ", into as usize);
    let measured = put_named(out, folded, b" distance ", distance);
    let worded = put_text(out, measured, b" run");
    let listed = put_events(out, worded, run);
    put_byte(out, listed, b'\n')
}
