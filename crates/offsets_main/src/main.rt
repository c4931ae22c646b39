#![tactic(auto)]
// The sheets of document 01's tables to try and of tables with idle events, and the refusals 1 to 7, 13 and 16: the answer, then the lent list and the scratch as they
// are afterwards. Both are lent with a number in each cell and, but for 7 and 13, longer than named. Lines are put into one buffer.
use lines::put_refusal;
use printing::{put_cells, put_line};
use rules::{Refusal, Table};
use std::io;

// Puts what is answered.
fn put_answer(out: &mut [u8], at: usize, answer: Result<usize, Refusal>) -> usize {
    match answer {
        Ok(n) => put_line(out, at, b"entries", &[n]),
        Err(refusal) => put_refusal(out, at, refusal.rule.number(), refusal.place),
    }
}

// Makes a sheet, and puts the answer and what was lent.
fn put_sheet(
    out: &mut [u8],
    at: usize,
    mask: u32,
    table: Table<'_>,
    list: &mut [u16],
    scratch: &mut [u16],
) -> usize {
    let answer = offsets::write_sheet(mask, table, list, scratch);
    let answered = put_answer(out, at, answer);
    let listed = put_cells(out, answered, list);
    put_cells(out, listed, scratch)
}

// With room for any table here, and more. The table has one mark byte.
fn put_ample(
    out: &mut [u8],
    at: usize,
    mask: u32,
    rows: usize,
    events: usize,
    start: usize,
    cells: &[u16],
    mark: u8,
) -> usize {
    let mut list = [9999u16; 10];
    let mut scratch = [7777u16; 24];
    let table = Table {
        rows,
        events,
        start,
        cells,
        marks: &[mark],
    };
    put_sheet(out, at, mask, table, &mut list, &mut scratch)
}

// Table C, with a list and a scratch of given lengths.
fn put_c(out: &mut [u8], at: usize, mask: u32, list: &mut [u16], scratch: &mut [u16]) -> usize {
    let table = Table {
        rows: 4,
        events: 1,
        start: 0,
        cells: &[1, 2, 3, 3],
        marks: &[2],
    };
    put_sheet(out, at, mask, table, list, scratch)
}

// Tables A to D.
fn tables_a_to_d(out: &mut [u8], at: usize) -> usize {
    let a = put_ample(out, at, 1, 3, 1, 0, &[1, 2, 2], 1);
    let b = put_ample(out, a, 3, 3, 2, 0, &[1, 2, 0, 0, 0, 0], 2);
    let c = put_ample(out, b, 1, 4, 1, 0, &[1, 2, 3, 3], 2);
    put_ample(out, c, 3, 4, 2, 3, &[1, 2, 0, 0, 0, 0, 0, 0], 2)
}

// Tables E and F; then tables with idle events: A with none counted, and two of which the first event counts. The other leads round
// between rows 0 and 3 in one of them, and stands between counted ones in the last.
fn tables_e_to_idle(out: &mut [u8], at: usize) -> usize {
    let e = put_ample(out, at, 3, 1, 2, 0, &[0, 0], 1);
    let f = put_ample(out, e, 1, 2, 1, 0, &[0, 0], 2);
    let none = put_ample(out, f, 0, 3, 1, 0, &[1, 2, 2], 1);
    let circle = put_ample(out, none, 1, 4, 2, 0, &[1, 3, 2, 1, 2, 2, 1, 0], 8);
    put_ample(out, circle, 1, 4, 2, 0, &[1, 0, 3, 2, 3, 2, 3, 3], 4)
}

// Rules 1 to 3.
fn refusals_1_to_3(out: &mut [u8], at: usize) -> usize {
    let one = put_ample(out, at, 1, 0, 1, 0, &[], 0);
    let two = put_ample(out, one, 1, 1, 33, 0, &[0], 0);
    put_ample(out, two, 3, 2, 2, 0, &[0, 0, 0, 0, 0], 0)
}

// Rules 4 to 6, and 6 where 16 is broken, too.
fn refusals_4_to_6(out: &mut [u8], at: usize) -> usize {
    let four = put_ample(out, at, 1, 2, 1, 2, &[0, 0], 0);
    let five = put_ample(out, four, 1, 2, 1, 0, &[1, 2], 0);
    let six = put_ample(out, five, 1, 2, 1, 0, &[1, 1], 4);
    put_ample(out, six, 2, 2, 1, 0, &[1, 1], 4)
}

// Four rows need 22 cells of scratch and 9 entries; 16 comes before 7, and 7 before 13.
fn rooms(out: &mut [u8], at: usize) -> usize {
    let mut shorter = [7777u16; 21];
    let mut short = [9999u16; 8];
    let sixteen = put_c(out, at, 2, &mut short, &mut shorter);
    let seven = put_c(out, sixteen, 1, &mut short, &mut shorter);
    let mut enough = [7777u16; 22];
    let thirteen = put_c(out, seven, 1, &mut short, &mut enough);
    let mut all = [9999u16; 9];
    put_c(out, thirteen, 1, &mut all, &mut enough)
}

fn main(rt: HostRuntime) -> io::Result<()> {
    let mut out = [0u8; 65536];
    let mut n = tables_a_to_d(&mut out, 0);
    n = tables_e_to_idle(&mut out, n);
    n = refusals_1_to_3(&mut out, n);
    n = refusals_4_to_6(&mut out, n);
    n = rooms(&mut out, n);
    printing::print(&mut rt.stdout(), &out, n)?;
    Ok(())
}
