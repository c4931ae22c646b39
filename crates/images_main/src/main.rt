#![tactic(auto)]
// Document 01's small examples of refusals 1 to 7, by the image writer, and an image written and read back. What the reader refuses is
// run by the independent cutter. Lines are put into one buffer, each function from a place on.
use image_sections::Shape;
use lines::put_refusal;
use printing::{put_cells, put_line};
use rules::{Refusal, Table};
use std::io;

// What the writer answers.
fn put_written(out: &mut [u8], at: usize, w: Result<usize, Refusal>) -> usize {
    match w {
        Err(refusal) => put_refusal(out, at, refusal.rule.number(), refusal.place),
        Ok(n) => put_line(out, at, b"length", &[n]),
    }
}

// A table of a size, without cells and mark bytes.
fn write_size(out: &mut [u8], at: usize, rows: usize, events: usize) -> usize {
    let table = Table {
        rows,
        events,
        start: 0,
        cells: &[],
        marks: &[],
    };
    let w = image_writer::write_image(table, &mut [99; 20]);
    put_written(out, at, w)
}

// A table of two rows.
fn write_two(
    out: &mut [u8],
    at: usize,
    events: usize,
    start: usize,
    cells: &[u16],
    mark: u8,
) -> usize {
    let table = Table {
        rows: 2,
        events,
        start,
        cells,
        marks: &[mark],
    };
    let w = image_writer::write_image(table, &mut [99; 20]);
    put_written(out, at, w)
}

// Table A, into bytes of a given length.
fn write_a(out: &mut [u8], at: usize, image: &mut [u8]) -> usize {
    let table = Table {
        rows: 3,
        events: 1,
        start: 0,
        cells: &[1, 2, 2],
        marks: &[1],
    };
    let w = image_writer::write_image(table, image);
    put_written(out, at, w)
}

// Rules 1 and 2.
fn sizes(out: &mut [u8], at: usize) -> usize {
    let mut next = write_size(out, at, 0, 1);
    next = write_size(out, next, 1025, 1);
    next = write_size(out, next, 1, 0);
    write_size(out, next, 1, 33)
}

// Rules 3 to 6.
fn unsound(out: &mut [u8], at: usize) -> usize {
    let mut next = write_two(out, at, 2, 0, &[0, 0, 0, 0, 0], 0);
    next = write_two(out, next, 1, 2, &[0, 0], 0);
    next = write_two(out, next, 1, 0, &[1, 2], 0);
    write_two(out, next, 1, 0, &[1, 0], 4)
}

// What the reader answers.
fn put_read(out: &mut [u8], at: usize, r: Result<Shape, Refusal>) -> usize {
    match r {
        Err(refusal) => put_refusal(out, at, refusal.rule.number(), refusal.place),
        Ok(table) => put_line(out, at, b"table", &[table.rows, table.events, table.start]),
    }
}

// Reads an image, and shows the lent cells and mark bytes: what is to spare stays as it was.
fn read(out: &mut [u8], at: usize, image: &[u8]) -> usize {
    let mut cells = [9999u16; 4];
    let mut marks = [99u8; 2];
    let r = image_reader::read_image(image, &mut cells, &mut marks);
    let mut next = put_read(out, at, r);
    next = put_cells(out, next, &cells);
    put_line(out, next, b"bytes", &[marks[0] as usize, marks[1] as usize])
}

// Bytes as numbers.
fn numbers(bytes: &[u8; 17]) -> [usize; 17] {
    let mut numbers = [0; 17];
    for i in 0..17 {
        numbers[i] = bytes[i] as usize;
    }
    numbers
}

// At last rule 7, just enough room, and room to spare, which stays as it was; then an image is read back.
fn main(rt: HostRuntime) -> io::Result<()> {
    let mut out = [0u8; 65536];
    let mut n = sizes(&mut out, 0);
    n = unsound(&mut out, n);
    n = write_a(&mut out, n, &mut [99; 14]);
    let mut enough = [99u8; 15];
    n = write_a(&mut out, n, &mut enough);
    let mut more = [99u8; 17];
    n = write_a(&mut out, n, &mut more);
    n = put_line(&mut out, n, b"bytes", &numbers(&more));
    n = read(&mut out, n, &enough);
    printing::print(&mut rt.stdout(), &out, n)?;
    Ok(())
}
