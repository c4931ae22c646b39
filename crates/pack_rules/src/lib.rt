#![tactic(auto)]
// What is judged of the tables of a pack before anything is written: tables that lie one after another, and the room for the bytes of their pack.
ghost use Rattle.std.specs.Prelude.{◌≡◌, [], ◌∷◌, ◌++◌, ◌+◌, ◌≤◌, length, get_or};
ghost use Rattle.rules.specs.Rules.{sound, judged, room_rule};
ghost use Rattle.packs.specs.Pack.{tables_in, cells_needed, marks_needed, pack_length};
ghost use Rattle.pack_rules.specs.Checks.{size_checks, together_rule, tables_checks, pack_checks};
ghost use Rattle.pack_rules.specs.Steps.{entry_at, needed_by};

use images::Form;
use rules::{Refusal, Rule, Table};

// A table of a list: its three entries, and how many cells and mark bytes it has.
#[derive(Clone, Copy)]
pub struct Entry {
    pub rows: usize,
    pub events: usize,
    pub start: usize,
    pub cells: usize,
    pub marks: usize,
}

// What the tables of a list need together: cells, mark bytes, and bytes for their pack.
#[derive(Clone, Copy)]
struct Needed {
    cells: usize,
    marks: usize,
    bytes: usize,
}

// The number so many behind a place of a list; 0 beyond it.
fn number(list: &[u16], at: usize, more: usize) -> usize
    ensures { (result ≡ get_or list.now (at + more) 0) × (result ≤ 65535) }
{
    if list.len() <= at || list.len() - at <= more {
        return 0;
    }
    list[at + more] as usize
}

// The table at a place of a list.
pub fn entry_at(list: &[u16], at: usize) -> Entry
    ensures { result ≡ entry_at list.now at }
{
    let rows = number(list, at, 0);
    let events = number(list, at, 1);
    Entry {
        rows,
        events,
        start: number(list, at, 2),
        cells: rows * events,
        marks: marks::mark_bytes(rows),
    }
}

// 1 and 2 of each table in turn.
fn check_sizes(list: &[u16]) -> Result<(), Refusal>
    ensures { result ≡ judged (size_checks list.now) }
{
    let limits = rules::winch();
    for i in 0..list.len() / 3 {
        let table = entry_at(list, 3 * i);
        if rules::beyond(limits.rows, table.rows) {
            return Err(Rule::Rows.at(0));
        }
        if rules::beyond(limits.events, table.events) {
            return Err(Rule::Events.at(0));
        }
    }
    Ok(())
}

// Adds up what the tables of a list need; there are at most 16.
fn add_up(list: &[u16]) -> Needed
    requires { length list.now ≤ 50 }
    ensures { result ≡ needed_by list.now }
{
    let mut cells = 0;
    let mut marks = 0;
    let mut bytes = 2;
    for i in 0..list.len() / 3 {
        let at = 3 * i;
        let table = entry_at(list, at);
        cells += table.cells;
        marks += table.marks;
        bytes += images::image_length(Form::Radio, list[at], list[at + 1]);
    }
    Needed {
        cells,
        marks,
        bytes,
    }
}

// 4, 5, 6 and 14 of each table in turn.
fn check_tables(list: &[u16], cells: &[u16], marks: &[u8]) -> Result<(), Refusal>
    requires { (judged (size_checks list.now) ≡ sound) × (length cells.now ≡ cells_needed list.now) × (length marks.now ≡ marks_needed list.now) }
    ensures { result ≡ judged (tables_checks (tables_in list.now cells.now marks.now)) }
{
    let mut cell = 0;
    let mut mark = 0;
    for i in 0..list.len() / 3 {
        let entry = entry_at(list, 3 * i);
        let next_cell = cell + entry.cells;
        let next_mark = mark + entry.marks;
        let table = Table {
            rows: entry.rows,
            events: entry.events,
            start: entry.start,
            cells: &cells[cell..next_cell],
            marks: &marks[mark..next_mark],
        };
        image_rules::check_image(Form::Radio, table)?;
        cell = next_cell;
        mark = next_mark;
    }
    Ok(())
}

// 3, and what comes behind it.
fn check_together(list: &[u16], cells: &[u16], marks: &[u8], room: usize) -> Result<(), Refusal>
    requires { (length list.now ≤ 50) × (judged (size_checks list.now) ≡ sound) }
    ensures { let l = list.now in let c = cells.now in let m = marks.now in
        result ≡ judged ((together_rule l c m ∷ tables_checks (tables_in l c m)) ++ (room_rule (pack_length l) room ∷ [])) }
{
    let needed = add_up(list);
    if list.len() % 3 != 0 {
        return Err(Rule::Lengths.at(0));
    }
    if cells.len() != needed.cells {
        return Err(Rule::Lengths.at(0));
    }
    if marks.len() != needed.marks {
        return Err(Rule::Lengths.at(0));
    }
    check_tables(list, cells, marks)?;
    if room < needed.bytes {
        return Err(Rule::Room.at(0));
    }
    Ok(())
}

// All that is judged before anything is written.
pub fn check_pack(list: &[u16], cells: &[u16], marks: &[u8], room: usize) -> Result<(), Refusal>
    ensures { result ≡ judged (pack_checks list.now cells.now marks.now room) }
{
    if rules::beyond(16, list.len() / 3) {
        return Err(Rule::Pack.at(0));
    }
    check_sizes(list)?;
    check_together(list, cells, marks, room)
}
