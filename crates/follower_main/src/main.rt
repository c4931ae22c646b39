#![tactic(auto)]
// A follower over more events than its count holds, over runs with events that do not count, and the refusals of an event:
// 5, 11, 4 and 16. Lines are put into one buffer, each function from a place on.
use follower::{Outcome, Shown};
use following::Follower;
use lines::put_refusal;
use rules::{Refusal, Table};
use std::io;
use text::{put_byte, put_cell, put_number, put_text};

// A refusal's rule and place.
fn put_refused(out: &mut [u8], at: usize, refusal: Refusal) -> usize {
    put_refusal(out, at, refusal.rule.number(), refusal.place)
}

// A mark, and whether it is settled.
fn put_shown(out: &mut [u8], at: usize, said: Result<Shown, Refusal>) -> usize {
    match said {
        Err(refusal) => put_refused(out, at, refusal),
        Ok(shown) => match (shown.ready, shown.settled) {
            (true, true) => put_text(out, at, b" ready settled"),
            (true, false) => put_text(out, at, b" ready open"),
            (false, true) => put_text(out, at, b" wait settled"),
            (false, false) => put_text(out, at, b" wait open"),
        },
    }
}

// Rows 0 to 2 are a ring: event 0 leads to the next row, event 1 to the one before. Rows 3 and 4 change places with each event. Rows 1 and 4 are ready.
fn ring() -> Table<'static> {
    Table {
        rows: 5,
        events: 2,
        start: 3,
        cells: &[1, 2, 2, 0, 0, 1, 4, 4, 3, 3],
        marks: &[18],
    }
}

// What a follower answers at an offset.
fn put_answer(out: &mut [u8], at: usize, k: Option<u16>, f: Follower) -> usize {
    put_shown(out, at, follower::answer(k, f, ring()))
}

// What it answers at two offsets and at none.
fn put_answers(out: &mut [u8], at: usize, first: u16, second: u16, f: Follower) -> usize {
    let mut next = put_answer(out, at, Some(first), f);
    next = put_answer(out, next, Some(second), f);
    next = put_answer(out, next, None, f);
    put_byte(out, next, b'\n')
}

// The follower after an event on the same table.
fn moved(mask: u32, f: Follower, event: usize) -> Follower {
    follower::stepped(f, mask, ring(), event).to
}

// The follower after n events: it is shown after few, and when its count is full.
fn put_some(out: &mut [u8], at: usize, n: usize, f: Follower) -> usize {
    if (5..65534).contains(&n) {
        return at;
    }
    let worded = put_text(out, at, b"events ");
    let numbered = put_number(out, worded, n);
    put_answers(out, numbered, 3, 65535, f)
}

// From row 3 to and fro.
fn long_run(out: &mut [u8], at: usize, start: Follower) -> usize {
    let mut next = at;
    let mut f = start;
    for n in 0..65540 {
        next = put_some(out, next, n, f);
        f = moved(1, f, 0);
    }
    next
}

// The run over the count's end, from the start.
fn run(out: &mut [u8]) -> usize {
    match follower::begin(ring()) {
        Ok(f) => long_run(out, 0, f),
        Err(refusal) => put_refused(out, 0, refusal),
    }
}

// A follower's row and count.
fn put_state(out: &mut [u8], at: usize, f: Follower) -> usize {
    let mut next = put_text(out, at, b"row ");
    next = put_cell(out, next, f.row);
    next = put_text(out, next, b" count ");
    put_cell(out, next, f.count)
}

// The follower after an event in the ring, and what it answers at the offsets 0, 1 and 2 and at none.
fn put_in_ring(out: &mut [u8], at: usize, event: usize, f: Follower) -> usize {
    let mut next = put_text(out, at, b"event ");
    next = put_number(out, next, event);
    next = put_byte(out, next, b' ');
    next = put_state(out, next, f);
    next = put_answer(out, next, Some(0), f);
    put_answers(out, next, 1, 2, f)
}

// A run in the ring, from row 0.
fn ring_run(out: &mut [u8], at: usize, mask: u32, events: &[usize]) -> usize {
    let mut next = at;
    let mut f = Follower { row: 0, count: 0 };
    for event in events {
        f = moved(mask, f, *event);
        next = put_in_ring(out, next, *event, f);
    }
    next
}

// What a step said.
fn put_verdict(out: &mut [u8], at: usize, verdict: Result<(), Refusal>) -> usize {
    match verdict {
        Err(refusal) => put_refused(out, at, refusal),
        Ok(()) => put_text(out, at, b"taken\n"),
    }
}

// What a step said, and the follower afterwards.
fn put_outcome(out: &mut [u8], at: usize, s: Outcome) -> usize {
    let v = s.verdict;
    let told = put_verdict(out, at, v);
    let f = s.to;
    let stated = put_state(out, told, f);
    put_byte(out, stated, b'\n')
}

// One event on three rows of two events, of which the targets of row 1 are no rows.
fn one_event(out: &mut [u8], at: usize, mask: u32, row: u16, event: usize) -> usize {
    let f = Follower { row, count: 0 };
    let table = Table {
        rows: 3,
        events: 2,
        start: 0,
        cells: &[1, 2, 3, 4, 0, 0],
        marks: &[0],
    };
    put_outcome(out, at, follower::stepped(f, mask, table, event))
}

// Both events counted: one is taken, the others are refused.
fn all_counted(out: &mut [u8], at: usize) -> usize {
    let taken = one_event(out, at, 3, 0, 1);
    let five = one_event(out, taken, 3, 1, 0);
    let beside = one_event(out, five, 3, 1, 1);
    let eleven = one_event(out, beside, 3, 2, 2);
    one_event(out, eleven, 3, 3, 2)
}

// The last of 32 events counted, on a table of one row.
fn last_counted(out: &mut [u8], at: usize, event: usize) -> usize {
    let f = Follower { row: 0, count: 0 };
    let table = Table {
        rows: 1,
        events: 32,
        start: 0,
        cells: &[0; 32],
        marks: &[0],
    };
    put_outcome(out, at, follower::stepped(f, 2147483648, table, event))
}

// A bit that belongs to no event: the lowest, the highest; then where 4, 11 and 5 are broken too.
fn spare_bits(out: &mut [u8], at: usize) -> usize {
    let lowest = one_event(out, at, 4, 0, 1);
    let highest = one_event(out, lowest, 2147483648, 0, 1);
    let four = one_event(out, highest, 4, 3, 2);
    let eleven = one_event(out, four, 4, 2, 2);
    one_event(out, eleven, 4, 1, 0)
}

// In the ring event 0 counts, then event 1, then none: each event moves the follower.
fn main(rt: HostRuntime) -> io::Result<()> {
    let mut out = [0u8; 65536];
    let mut n = run(&mut out);
    n = all_counted(&mut out, n);
    n = ring_run(&mut out, n, 1, &[1, 0, 1, 1, 0, 0, 1]);
    n = ring_run(&mut out, n, 2, &[0, 1, 1]);
    n = ring_run(&mut out, n, 0, &[0, 1, 0]);
    n = last_counted(&mut out, n, 31);
    n = last_counted(&mut out, n, 30);
    n = spare_bits(&mut out, n);
    printing::print(&mut rt.stdout(), &out, n)?;
    Ok(())
}
