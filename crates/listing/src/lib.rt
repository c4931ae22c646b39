#![tactic(auto)]
// The listing that `reduce` prints, as bytes in a lent buffer, from a place on and as far as there is room. Each function answers the place after what it wrote.
ghost use Rattle.std.specs.Prelude.{◌≡◌, ◌++◌, get_or};
ghost use Rattle.text.specs.Text.{decimal, joined, Puts};
ghost use Rattle.listing.specs.Listing.{target_word, mark_words, row_line, depth_words, fate_words, record_line, blank, listing};

use lines::put_head;
use records::{Depth, Fate, Record};
use text::{put_byte, put_cell, put_text};

// Writes the targets of a row, each after a space.
fn put_targets(out: &mut [u8], at: usize, row: u16, events: u16, cells: &[u16]) -> usize
    ensures { Puts out.old at (joined events (target_word events cells.now row)) out.new result }
{
    let mut next = at;
    for event in 0..events {
        next = put_byte(out, next, b' ');
        next = put_cell(out, next, scratch::target(cells, events, row, event));
    }
    next
}

// Writes a mark and the line's end.
fn put_mark(out: &mut [u8], at: usize, mark: u8) -> usize
    ensures { Puts out.old at (mark_words mark) out.new result }
{
    if mark == 1 {
        return put_text(out, at, b" ready\n");
    }
    put_text(out, at, b" wait\n")
}

// Writes the line of a new row.
fn put_row(out: &mut [u8], at: usize, row: u16, events: u16, cells: &[u16], marks: &[u8]) -> usize
    ensures { Puts out.old at (row_line events cells.now marks.now row) out.new result }
{
    let numbered = put_cell(out, at, row);
    let targeted = put_targets(out, numbered, row, events, cells);
    put_mark(out, targeted, marks::mark(marks, row as usize))
}

// Writes the lines of the new rows.
fn put_rows(out: &mut [u8], at: usize, rows: u16, events: u16, cells: &[u16], marks: &[u8]) -> usize
    ensures { Puts out.old at (joined rows (row_line events cells.now marks.now)) out.new result }
{
    let mut next = at;
    for row in 0..rows {
        next = put_row(out, next, row, events, cells, marks);
    }
    next
}

// Writes a depth and the line's end.
fn put_depth(out: &mut [u8], at: usize, depth: Depth) -> usize
    ensures { Puts out.old at (depth_words depth) out.new result }
{
    match depth {
        Depth::Number(d) => {
            let worded = put_text(out, at, b" depth ");
            let numbered = put_cell(out, worded, d);
            put_byte(out, numbered, b'\n')
        }
        Depth::Endless => put_text(out, at, b" depth endless\n"),
    }
}

// Writes the fate of a reached row: a word, the row that it names, and the depth.
fn put_reached(out: &mut [u8], at: usize, word: &[u8], row: u16, depth: Depth) -> usize
    ensures { Puts out.old at (word.now ++ decimal row ++ depth_words depth) out.new result }
{
    let worded = put_text(out, at, word);
    let numbered = put_cell(out, worded, row);
    put_depth(out, numbered, depth)
}

// Writes a fate, with the depth of a reached row.
fn put_fate(out: &mut [u8], at: usize, fate: Fate, depth: Depth) -> usize
    ensures { Puts out.old at (fate_words fate depth) out.new result }
{
    match fate {
        Fate::Kept(number) => put_reached(out, at, b" kept ", number, depth),
        Fate::Folded(row) => put_reached(out, at, b" folded ", row, depth),
        Fate::Unreached => put_text(out, at, b" unreached\n"),
    }
}

// The record of a row; a blank one beyond the last.
fn record_of(records: [Record; 1024], row: u16) -> Record
    ensures { result ≡ get_or records row blank }
{
    match records.get(row as usize) {
        Some(record) => *record,
        None => Record {
            depth: Depth::Number(0),
            fate: Fate::Unreached,
        },
    }
}

// Writes the line of a given row.
fn put_record(out: &mut [u8], at: usize, row: u16, what: Record) -> usize
    ensures { Puts out.old at (record_line row what) out.new result }
{
    let numbered = put_cell(out, at, row);
    let fate = what.fate;
    let depth = what.depth;
    put_fate(out, numbered, fate, depth)
}

// Writes the lines of the given rows.
fn put_records(out: &mut [u8], at: usize, given: u16, records: [Record; 1024]) -> usize
    ensures { Puts out.old at (joined given (λ row. record_line row (get_or records row blank))) out.new result }
{
    let mut next = at;
    for row in 0..given {
        next = put_record(out, next, row, record_of(records, row));
    }
    next
}

// Writes a reduced table, with how many of its events count, and the records of the given rows.
pub fn put_listing(
    out: &mut [u8],
    at: usize,
    rows: u16,
    events: u16,
    counted: usize,
    cells: &[u16],
    marks: &[u8],
    given: u16,
    records: [Record; 1024],
) -> usize
    ensures { Puts out.old at (listing rows events counted cells.now marks.now given records) out.new result }
{
    let tabled = put_head(out, at, b"table ", rows as usize, events as usize, counted);
    let listed = put_rows(out, tabled, rows, events, cells, marks);
    let worded = put_text(out, listed, b"folds ");
    let numbered = put_cell(out, worded, given);
    let ended = put_byte(out, numbered, b'\n');
    put_records(out, ended, given, records)
}
