#![tactic(auto)]
// Table D of document 01 through the reducer with its records, on just the scratch that each way needs. The other tables to try and the
// edges are run by the independent cutter. Lines are put into one buffer, each function from a place on.
use lines::put_refusal;
use listing::put_listing;
use printing::put_line;
use records::{Depth, Fate, Record};
use reducer::Outcome;
use rules::Table;
use std::io;
use text::put_text;
use ways::Way;

// Says so if a cell is not cleared.
fn put_uncleared(out: &mut [u8], at: usize, cells: &[u16]) -> usize {
    for cell in cells {
        if *cell != 0 {
            return put_text(out, at, b"scratch not cleared\n");
        }
    }
    at
}

// The listing of a reduction of table D. The new table has no more rows than the given one.
fn put_case(out: &mut [u8], at: usize, cells: &[u16], marks: &[u8], done: Outcome) -> usize {
    match done.answer {
        Ok(left) => {
            let kept = records::fewer(4, left);
            put_listing(out, at, kept, 2, 2, cells, marks, 4, done.records)
        }
        Err(refusal) => put_refusal(out, at, refusal.rule.number(), refusal.place),
    }
}

// Table D at offset 1: row 3 is similar to rows 1 and 2, which are not similar to each other, and folds into the first.
fn table_d(out: &mut [u8], at: usize, name: &[u8], way: Way, scratch: &mut [u16]) -> usize {
    let mut newcells = [9999u16; 8];
    let mut newmarks = [99u8; 1];
    let table = Table {
        rows: 4,
        events: 2,
        start: 3,
        cells: &[1, 2, 0, 0, 0, 0, 0, 0],
        marks: &[2],
    };
    let done = reducer::reduce_recorded(
        way,
        Some(1),
        3,
        table,
        &mut newcells,
        &mut newmarks,
        [Record {
            depth: Depth::Number(9999),
            fate: Fate::Kept(9999),
        }; 1024],
        scratch,
    );
    let named = put_line(out, at, name, &[]);
    let listed = put_case(out, named, &newcells, &newmarks, done);
    put_uncleared(out, listed, scratch)
}

fn main(rt: HostRuntime) -> io::Result<()> {
    let mut out = [0u8; 65536];
    let mut n = table_d(&mut out, 0, b"22 cells", Way::First, &mut [9999; 22]);
    n = table_d(&mut out, n, b"48 cells", Way::Second, &mut [9999; 48]);
    printing::print(&mut rt.stdout(), &out, n)?;
    Ok(())
}
