#![tactic(auto)]
// What `facts` prints for an input, as one text. A text is made at the start of a buffer; the answer is how many bytes it takes.
ghost use Rattle.std.specs.Prelude.{◌≡◌, ◌+◌, ◌*◌, ◌≤◌, length, take};
ghost use Rattle.tree.specs.Record.{width};
ghost use Rattle.semantic.specs.Rows.{row_width};
ghost use Rattle.pass.specs.Run.{facts_length};
ghost use Rattle.answers.specs.Answer.{tables};
ghost use Rattle.answers.specs.Lent.{held, Same};
ghost use Rattle.listing.specs.Listing.{records_most, text_length, all_fit};
ghost use Rattle.listing.specs.Answered.{RowAfter, RowsIn, FactsIn, OutcomeIn, FreshIn, Counted, Few, InputIn, Answered, TextIn};

use analysis::fresh;
use answers::{FACTS, LIST_ENTRIES, Refusal, Tables};
use printing::refusals::{bad_line, refused_line};
use printing::rows::row_line;
use printing::summary::summary;
use reading::reader::{BadLine, Counts, Reading};
use tree::record::WIDTH;
use work::WORK;

// The most records of an input.
pub const RECORDS: usize = 512;

// How long the lent tables are: for the classes and the records of an input, and for its text.
pub const CLASS_TABLE: usize = 1024;

pub const RECORD_TABLE: usize = WIDTH * RECORDS;

pub const TEXT: usize = 128 * RECORDS + 128;

// The line of a row, behind the first `end` bytes; answers where it ends. The place stays beside the buffer: `row_line` and `summary` promise a line at the
// start of what they are lent.
fn row_after(facts: &[u32], at: usize, out: &mut [u8], end: usize) -> usize
    requires { (row_width * at + row_width ≤ length facts.now) × (end + 128 ≤ length out.old) }
    ensures { RowAfter facts.now at out.old end out.new result }
{
    let line = row_line(facts, at, &mut out[end..]);
    end + line
}

// The lines of the first rows.
fn rows_text(facts: &[u32], rows: usize, out: &mut [u8]) -> usize
    requires { (row_width * rows ≤ length facts.now) × (128 * rows ≤ length out.old) }
    ensures { RowsIn facts.now rows out.new result }
{
    let mut end = 0;
    for i in 0..rows {
        end = row_after(facts, i, out, end);
    }
    end
}

// Rows behind the first ones have no fact.
fn facts_text(facts: &[u32], rows: usize, out: &mut [u8]) -> usize
    requires { (length facts.now ≡ facts_length) × (rows ≤ records_most) × (text_length ≤ length out.old) }
    ensures { FactsIn facts.now rows out.new result }
{
    let end = rows_text(facts, rows, out);
    let last = summary(facts, &mut out[end..]);
    end + last
}

fn outcome_text(a: Result<(), Refusal>, tables: &Tables, rows: usize, out: &mut [u8]) -> usize
    requires { (length tables.now.facts.now ≡ facts_length) × (rows ≤ records_most) × (text_length ≤ length out.old) }
    ensures { OutcomeIn a tables.now.facts.now rows out.new result }
{
    match a {
        Ok(()) => facts_text(tables.facts, rows, out),
        Err(r) => refused_line(r.number() as u64, r.record() as u64, out),
    }
}

// The first `names` classes and `many` records are analysed.
fn fresh_text(
    names: usize,
    many: usize,
    classes: &[u8],
    records: &[u32],
    tables: &mut Tables,
    out: &mut [u8],
) -> usize
    requires few { Few classes.now records.now (held tables.old) names many }
    requires text_length_in_bounds { text_length ≤ length out.old }
    ensures fresh { FreshIn (take names classes.now) (take (width * many) records.now) (held tables.new) out.new result }
    ensures same { Same tables.old tables.new }
{
    let a = fresh(
        &records[..WIDTH * many],
        &classes[..names],
        tables.facts,
        tables.captured,
        tables.arguments,
        tables.work,
    );
    outcome_text(a, tables, many, out)
}

// Check 1: every lent table of its set length.
fn all_fit(classes: &[u8], records: &[u32], tables: &Tables) -> bool
    ensures { result ≡ all_fit classes.now records.now (held tables.now) }
{
    if classes.len() != CLASS_TABLE || records.len() != RECORD_TABLE {
        return false;
    }
    tables.fit(records)
}

// Check 2: more records than the program takes, or more names than an operation does.
fn too_many(read: Counts) -> bool
    ensures { Counted read.classes read.records result }
{
    read.records > RECORDS as u64 || read.classes > CLASS_TABLE as u64
}

// A good input. A refusal that needs no run leaves the tables as one of the operation does.
fn input_text(
    read: Counts,
    classes: &[u8],
    records: &[u32],
    tables: &mut Tables,
    out: &mut [u8],
) -> usize
    requires { text_length ≤ length out.old }
    ensures input { InputIn read.classes read.records classes.now records.now (held tables.old) (held tables.new) out.new result }
    ensures same { Same tables.old tables.new }
{
    if !all_fit(classes, records, tables) {
        return refused_line(1, 0, out);
    }
    if too_many(read) {
        tables.clear_all();
        return refused_line(2, 0, out);
    }
    fresh_text(
        read.classes as usize,
        read.records as usize,
        classes,
        records,
        tables,
        out,
    )
}

// The text for the bytes that were read; and the tables as the fresh run leaves them, where one is made. A bad line, refusal 1 and an `out` that is too short
// leave them unchanged. Free is what stands in `out` behind the text: its length stays. A short `out` is unchanged.
pub fn answer(
    r: Reading,
    classes: &[u8],
    records: &[u32],
    facts: &mut [u32],
    captured: &mut [u32],
    arguments: &mut [u32],
    work: &mut [u32],
    out: &mut [u8],
) -> usize
    ensures { Answered r classes.now records.now
        (tables facts.old captured.old arguments.old work.old) out.old
        (tables facts.new captured.new arguments.new work.new) out.new result }
{
    if out.len() < TEXT {
        return 0;
    }
    let mut tables = Tables {
        facts,
        captured,
        arguments,
        work,
    };
    match r.finish() {
        Err(BadLine(line)) => bad_line(line, out),
        Ok(read) => input_text(read, classes, records, &mut tables, out),
    }
}

// The same with the run's tables made here.
pub fn text(
    r: Reading,
    classes: &[u8; CLASS_TABLE],
    records: &[u32; RECORD_TABLE],
    out: &mut [u8; TEXT],
) -> usize
    ensures { TextIn r classes.now records.now out.new result }
{
    let mut facts = [0u32; FACTS];
    let mut captured = [0u32; LIST_ENTRIES];
    let mut arguments = [0u32; LIST_ENTRIES];
    let mut work = [0u32; WORK];
    answer(
        r,
        classes,
        records,
        &mut facts,
        &mut captured,
        &mut arguments,
        &mut work,
        out,
    )
}
