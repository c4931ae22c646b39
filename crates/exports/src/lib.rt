#![tactic(auto)]
// The functions for programs in C or Rust: `rt lib` here makes `out/libexports.a`.
ghost use Rattle.std.specs.Prelude.{◌≡◌, true, min, length, replicate};
ghost use Rattle.tables.specs.Table.{weight_by};
ghost use Rattle.tables.specs.Reduction.{reduced};
ghost use Rattle.rules.specs.Rules.{winch, table_of, left_by};
ghost use Rattle.scratch.specs.Scratch.{scratch_cells, few_cells};
ghost use Rattle.reduction_rules.specs.Checks.{verdict, answer_by};
ghost use Rattle.reduction.specs.Reduce.{Promise};
ghost use Rattle.load.specs.Load.{load, verdict as verdict_of_load, Promise as PromiseOfLoad};
ghost use Rattle.images.specs.declared.Form.TheVariants.{Radio};
ghost use Rattle.image_writer.specs.Write.{written_as, image_in_as};
ghost use Rattle.image_sections.specs.Read.{any_rows};
ghost use Rattle.image_reader.specs.Read.{read_in_form, cells_as, marks_in};
ghost use Rattle.packs.specs.Pack.{list_of, cells_of, marks_of};
ghost use Rattle.pack_writer.specs.Write.{packed, pack_in};
ghost use Rattle.pack_reader.specs.Read.{unpacked, answer_of, left_in};
ghost use Rattle.answers.specs.Answers.{of_count, of_read, of_told, of_ordered, of_verdict, offset_in};
ghost use Rattle.chosen.specs.GivenUp.{given_up};
ghost use Rattle.last_run_rules.specs.Checks.{verdict as verdict_of_row, answer_by as told_by};
ghost use Rattle.last_run.specs.LastRun.{last_of_all, Promise as PromiseOfRun};
ghost use Rattle.ordering.specs.Order.{comparison};
ghost use Rattle.order_rules.specs.Checks.{pair_cells, verdict as verdict_of_both, answer_by as ordered_by};
ghost use Rattle.text.specs.Text.{filled};
ghost use Rattle.desk.specs.Printed.{printed};
ghost use Rattle.sheet_desk.specs.Printed.{printed as printed_sheet};
ghost use Rattle.loss_desk.specs.Printed.{printed as printed_losses};

use rules::Table;

// Writes what `reduce` prints for its input, as `desk::write_text` does.
#[unsafe(no_mangle)]
pub extern "C" fn gelfost_reduce_text(input: &[u8], out: &mut [u8]) -> usize
    ensures { let t = printed input.now in let room = out.old in
        (out.new ≡ filled room t)
        × (result ≡ min (length t) (length room)) }
{
    desk::write_text(input, out)
}

// Writes what `sheet` prints for its input, as `sheet_desk::write_sheet_text` does.
#[unsafe(no_mangle)]
pub extern "C" fn gelfost_sheet_text(input: &[u8], out: &mut [u8]) -> usize
    ensures { let t = printed_sheet input.now in let room = out.old in
        (out.new ≡ filled room t)
        × (result ≡ min (length t) (length room)) }
{
    sheet_desk::write_sheet_text(input, out)
}

// Writes what `given_up` prints for its input, as `loss_desk::write_loss_text` does.
#[unsafe(no_mangle)]
pub extern "C" fn gelfost_given_up_text(input: &[u8], out: &mut [u8]) -> usize
    ensures { let t = printed_losses input.now in let room = out.old in
        (out.new ≡ filled room t)
        × (result ≡ min (length t) (length room)) }
{
    loss_desk::write_loss_text(input, out)
}

// Writes the radio image of a table, as `image_writer::write_radio_image` does.
#[unsafe(no_mangle)]
pub extern "C" fn gelfost_write_radio(
    rows: usize,
    events: usize,
    start: usize,
    cells: &[u16],
    marks: &[u8],
    out: &mut [u8],
    answer: &mut [usize; 4],
)
    ensures { let T = table_of rows events start cells.now marks.now in let b = out.old in
        (out.new ≡ image_in_as Radio T b)
        × (answer.new ≡ of_count (written_as Radio T (length b))) }
{
    let table = Table {
        rows,
        events,
        start,
        cells,
        marks,
    };
    let written = image_writer::write_radio_image(table, out);
    answers::put_count(answer, written);
}

// Reads a radio image, as `image_reader::read_radio_image` does.
#[unsafe(no_mangle)]
pub extern "C" fn gelfost_read_radio(
    image: &[u8],
    cells: &mut [u16],
    marks: &mut [u8],
    answer: &mut [usize; 4],
)
    ensures { let b = image.now in let given = cells.old in let bytes = marks.old in
        let read = read_in_form true Radio winch any_rows b (length given) (length bytes) in
        (cells.new ≡ cells_as Radio read b given)
        × (marks.new ≡ marks_in read b bytes)
        × (answer.new ≡ of_read read) }
{
    let read = image_reader::read_radio_image(image, cells, marks);
    answers::put_read(answer, read);
}

// Writes a pack, as `pack_writer::write_pack` does.
#[unsafe(no_mangle)]
pub extern "C" fn gelfost_write_pack(
    list: &[u16],
    cells: &[u16],
    marks: &[u8],
    out: &mut [u8],
    answer: &mut [usize; 4],
)
    ensures { let l = list.now in let c = cells.now in let m = marks.now in let b = out.old in
        (out.new ≡ pack_in l c m b)
        × (answer.new ≡ of_count (packed l c m (length b))) }
{
    let written = pack_writer::write_pack(list, cells, marks, out);
    answers::put_count(answer, written);
}

// Reads a pack, as `pack_reader::read_pack` does.
#[unsafe(no_mangle)]
pub extern "C" fn gelfost_read_pack(
    pack: &[u8],
    list: &mut [u16],
    cells: &mut [u16],
    marks: &mut [u8],
    answer: &mut [usize; 4],
)
    ensures { let entries = list.old in let given = cells.old in let bytes = marks.old in
        let found = unpacked pack.now (length entries) (length given) (length bytes) in
        (list.new ≡ left_in found list_of entries)
        × (cells.new ≡ left_in found cells_of given)
        × (marks.new ≡ left_in found marks_of bytes)
        × (answer.new ≡ of_count (answer_of found)) }
{
    let found = pack_reader::read_pack(pack, list, cells, marks);
    answers::put_count(answer, found);
}

// Reduces a table, as `reduction::reduce_table` does the first way.
#[unsafe(no_mangle)]
pub extern "C" fn gelfost_reduce(
    offset: u32,
    mask: u32,
    rows: usize,
    events: usize,
    start: usize,
    cells: &[u16],
    marks: &[u8],
    newcells: &mut [u16],
    newmarks: &mut [u8],
    scratch: &mut [u16],
    answer: &mut [usize; 4],
)
    ensures { let T = table_of rows events start cells.now marks.now in let k = offset_in offset in
        let c = newcells.old in let m = newmarks.old in let s = scratch.old in
        let need = scratch_cells in let v = verdict need mask T (length c) (length m) rows (length s) in let a = answer_by v (reduced (weight_by mask) k T).rows in
        (answer.new ≡ of_count a)
        × Promise need v k mask T c m s a newcells.new newmarks.new scratch.new }
{
    let table = Table {
        rows,
        events,
        start,
        cells,
        marks,
    };
    let found = reduction::reduce_table(
        ways::Way::First,
        answers::offset_of(offset),
        mask,
        table,
        newcells,
        newmarks,
        scratch,
    );
    answers::put_count(answer, found);
}

// Reduces a table, as `reduction::reduce_table` does the second way.
#[unsafe(no_mangle)]
pub extern "C" fn gelfost_reduce_few(
    offset: u32,
    mask: u32,
    rows: usize,
    events: usize,
    start: usize,
    cells: &[u16],
    marks: &[u8],
    newcells: &mut [u16],
    newmarks: &mut [u8],
    scratch: &mut [u16],
    answer: &mut [usize; 4],
)
    ensures { let T = table_of rows events start cells.now marks.now in let k = offset_in offset in
        let c = newcells.old in let m = newmarks.old in let s = scratch.old in
        let need = few_cells in let v = verdict need mask T (length c) (length m) rows (length s) in let a = answer_by v (reduced (weight_by mask) k T).rows in
        (answer.new ≡ of_count a)
        × Promise need v k mask T c m s a newcells.new newmarks.new scratch.new }
{
    let table = Table {
        rows,
        events,
        start,
        cells,
        marks,
    };
    let k = answers::offset_of(offset);
    let found = reduction::reduce_table(
        ways::Way::Second,
        k,
        mask,
        table,
        newcells,
        newmarks,
        scratch,
    );
    answers::put_count(answer, found);
}

// Draws the table of a seed, as `load::generate` does.
#[unsafe(no_mangle)]
pub extern "C" fn gelfost_generate(
    seed: u32,
    rows: usize,
    events: usize,
    cells: &mut [u16],
    marks: &mut [u8],
    answer: &mut [usize; 4],
)
    ensures { let c = cells.old in let m = marks.old in
        let v = verdict_of_load seed rows events (length c) (length m) in
        (answer.new ≡ of_verdict v)
        × PromiseOfLoad v (load seed rows events) c m v cells.new marks.new }
{
    let verdict = load::generate(seed, rows, events, cells, marks);
    answers::put_verdict(answer, verdict);
}

// What a row gives up, as `last_run::last_run` tells it.
#[unsafe(no_mangle)]
pub extern "C" fn gelfost_last_run(
    offset: u32,
    mask: u32,
    rows: usize,
    events: usize,
    start: usize,
    cells: &[u16],
    marks: &[u8],
    row: usize,
    run: &mut [u8],
    scratch: &mut [u16],
    answer: &mut [usize; 4],
)
    ensures { let T = table_of rows events start cells.now marks.now in let k = offset_in offset in
        let bytes = run.old in let s = scratch.old in
        let v = verdict_of_row mask T row (length s) in let g = given_up (weight_by mask) k T row in let a = told_by (last_of_all v g (length bytes)) g in
        (answer.new ≡ of_told a)
        × PromiseOfRun v g k mask T row bytes s a run.new scratch.new }
{
    let table = Table {
        rows,
        events,
        start,
        cells,
        marks,
    };
    let from = answers::offset_of(offset);
    let told = last_run::last_run(from, mask, table, row, run, scratch);
    answers::put_told(answer, told);
}

// Which of two tables comes first, as `order::compare` tells it.
#[unsafe(no_mangle)]
pub extern "C" fn gelfost_compare(
    rows: usize,
    events: usize,
    start: usize,
    cells: &[u16],
    marks: &[u8],
    rows2: usize,
    events2: usize,
    start2: usize,
    cells2: &[u16],
    marks2: &[u8],
    scratch: &mut [u16],
    answer: &mut [usize; 4],
)
    ensures { let T = table_of rows events start cells.now marks.now in
        let U = table_of rows2 events2 start2 cells2.now marks2.now in let s = scratch.old in let v = verdict_of_both T U (length s) in
        (answer.new ≡ of_ordered (ordered_by v (comparison T U)))
        × (scratch.new ≡ left_by v s (replicate (pair_cells rows rows2) 0)) }
{
    let first = Table {
        rows,
        events,
        start,
        cells,
        marks,
    };
    let second = Table {
        rows: rows2,
        events: events2,
        start: start2,
        cells: cells2,
        marks: marks2,
    };
    let ordered = order::compare(first, second, scratch);
    answers::put_ordered(answer, ordered);
}
