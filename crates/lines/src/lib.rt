#![tactic(auto)]
// Lines of text in a lent buffer: two numbers, the first line for a table, and a refusal.
ghost use Rattle.text.specs.Text.{Puts};
ghost use Rattle.lines.specs.Lines.{pair_line, head_line, refusal_line};

// Writes two numbers and the line's end.
pub fn put_pair(out: &mut [u8], at: usize, first: usize, second: usize) -> usize
    ensures { Puts out.old at (pair_line first second) out.new result }
{
    let numbered = text::put_number(out, at, first);
    let spaced = text::put_byte(out, numbered, b' ');
    let paired = text::put_number(out, spaced, second);
    text::put_byte(out, paired, b'\n')
}

// Writes the first line for a table: a word, the rows, the events, and how many events count.
pub fn put_head(
    out: &mut [u8],
    at: usize,
    word: &[u8],
    rows: usize,
    events: usize,
    counted: usize,
) -> usize
    ensures { Puts out.old at (head_line word.now rows events counted) out.new result }
{
    let worded = text::put_text(out, at, word);
    let rowed = text::put_number(out, worded, rows);
    let spaced = text::put_byte(out, rowed, b' ');
    put_pair(out, spaced, events, counted)
}

// Writes a refusal.
pub fn put_refusal(out: &mut [u8], at: usize, number: usize, place: usize) -> usize
    ensures { Puts out.old at (refusal_line number place) out.new result }
{
    let worded = text::put_text(out, at, b"refused ");
    put_pair(out, worded, number, place)
}
