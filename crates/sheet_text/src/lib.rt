#![tactic(auto)]
// The lines of a sheet in a lent buffer, by a list of the counts.
ghost use Rattle.std.specs.Prelude.{◌≡◌, ◌-◌, length, get_or};
ghost use Rattle.text.specs.Text.{joined, Puts};
ghost use Rattle.lines.specs.Lines.{pair_line};
ghost use Rattle.sheet_text.specs.Sheet.{none_line, list_lines};

use lines::{put_head, put_pair};
use text::{put_byte, put_cell, put_text};

// Writes the lines of the offsets.
fn put_entries(out: &mut [u8], at: usize, list: &[u16]) -> usize
    ensures { let l = list.now in
        Puts out.old at (joined (length l) (λ k. pair_line k (get_or l k 0))) out.new result }
{
    let mut next = at;
    for (k, count) in list.iter().enumerate() {
        next = put_pair(out, next, k, *count as usize);
    }
    next
}

// Writes the last line.
fn put_none(out: &mut [u8], at: usize, count: u16) -> usize
    ensures { Puts out.old at (none_line count) out.new result }
{
    let worded = put_text(out, at, b"none ");
    let counted = put_cell(out, worded, count);
    put_byte(out, counted, b'\n')
}

// The last count; of an empty list 0.
fn last(list: &[u16]) -> u16
    ensures { let l = list.now in result ≡ get_or l (length l - 1) 0 }
{
    list.last().copied().unwrap_or(0)
}

// Writes all lines. The last offset's count is also that for none.
pub fn put_sheet(out: &mut [u8], rows: usize, events: usize, counted: usize, list: &[u16]) -> usize
    ensures { Puts out.old 0 (list_lines rows events counted list.now) out.new result }
{
    let headed = put_head(out, 0, b"sheet ", rows, events, counted);
    let entered = put_entries(out, headed, list);
    put_none(out, entered, last(list))
}
