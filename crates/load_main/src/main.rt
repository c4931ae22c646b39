#![tactic(auto)]
// The largest tables, 1,024 rows of 32 events: as a chain, and drawn from a seed. What is printed is the new row count of each, and of its
// sheet the number of entries, the first one, those of offsets 1,022 and 1,023, and the last. Lines are put into one buffer.
ghost use Rattle.std.specs.Prelude.{◌≡◌, length};

use lines::put_refusal;
use printing::put_line;
use rules::Refusal;
use std::io;

// Every event counts.
const ALL: u32 = 4294967295;

// The row after `row`; after the last row it is that row itself.
fn row_after(row: usize) -> u16 {
    if row < 1023 {
        return (row + 1) as u16;
    }
    1023
}

// Every event of 32 leads to the row after.
fn fill_chain(cells: &mut [u16]) {
    for (c, cell) in cells.iter_mut().enumerate() {
        *cell = row_after(c / 32);
    }
}

// An array of zeros. A call has its length from the clause, so that no proof counts up to a large one.
fn zeros<const N: usize>() -> [u16; N]
    ensures { N ≡ length result }
{
    [0; N]
}

// The table of 1,024 rows and 32 events that stands in cells and marks, with row 0 as its start.
fn largest<'a>(cells: &'a [u16], marks: &'a [u8]) -> rules::Table<'a> {
    rules::Table {
        rows: 1024,
        events: 32,
        start: 0,
        cells,
        marks,
    }
}

// Reduces a table of 1,024 rows and 32 events.
fn reduce(offset: Option<u16>, cells: &[u16], marks: &[u8]) -> Result<usize, Refusal> {
    let mut newcells = [0u16; 32768];
    let mut newmarks = [0u8; 128];
    let mut scratch = zeros::<527872>();
    reduction::reduce_table(
        ways::Way::First,
        offset,
        ALL,
        largest(cells, marks),
        &mut newcells,
        &mut newmarks,
        &mut scratch,
    )
}

// Puts a new row count.
fn put_reduced(out: &mut [u8], at: usize, name: &[u8], answer: Result<usize, Refusal>) -> usize {
    match answer {
        Ok(rows) => put_line(out, at, name, &[rows]),
        Err(refusal) => put_refusal(out, at, refusal.rule.number(), refusal.place),
    }
}

// Lists the fewest rows of a table of 1,024 rows and 32 events at every offset.
fn sheet(cells: &[u16], marks: &[u8], list: &mut [u16]) -> Result<usize, Refusal> {
    let mut scratch = zeros::<527872>();
    offsets::write_sheet(ALL, largest(cells, marks), list, &mut scratch)
}

// An entry of a sheet.
fn entry(list: &[u16], k: usize) -> usize {
    scratch::cell(list, k) as usize
}

// Puts some entries of a sheet.
fn put_listed(
    out: &mut [u8],
    at: usize,
    name: &[u8],
    answer: Result<usize, Refusal>,
    list: &[u16],
) -> usize {
    match answer {
        Ok(n) => put_line(
            out,
            at,
            name,
            &[
                n,
                entry(list, 0),
                entry(list, 1022),
                entry(list, 1023),
                entry(list, 2048),
            ],
        ),
        Err(refusal) => put_refusal(out, at, refusal.rule.number(), refusal.place),
    }
}

// Each table is reduced and then put on a sheet.
fn main(rt: HostRuntime) -> io::Result<()> {
    let mut out = [0u8; 65536];
    let mut list = [0u16; 2049];
    let mut cells = [0u16; 32768];
    let mut marks = [0u8; 128];
    marks[127] = 128;
    fill_chain(&mut cells);
    let chain = reduce(Some(1023), &cells, &marks);
    let mut n = put_reduced(&mut out, 0, b"chain", chain);
    let chained = sheet(&cells, &marks, &mut list);
    n = put_listed(&mut out, n, b"chain sheet", chained, &list);
    // Seed 1 and these counts and buffers break no rule.
    let _ = load::generate(1, 1024, 32, &mut cells, &mut marks);
    let drawn = reduce(None, &cells, &marks);
    n = put_reduced(&mut out, n, b"drawn", drawn);
    let listed = sheet(&cells, &marks, &mut list);
    n = put_listed(&mut out, n, b"drawn sheet", listed, &list);
    printing::print(&mut rt.stdout(), &out, n)?;
    Ok(())
}
