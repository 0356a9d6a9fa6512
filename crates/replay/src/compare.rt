// An answer and the tables that it leaves, beside what the input says of them.
ghost use Rattle.std.specs.Prelude.{◌≤◌, ◌<◌};
ghost use Rattle.replay.specs.Reads.{GoesOn};

use crate::input::Numbers;
use answers::{Refusal, Tables};
use semantic::fields::{LIST_ENTRY, ROW};
use table::wide;

// A table has many numbers, nearly all of them zero: of many together all bits, which needs no branch for each number.
fn is_zero(t: &[u32]) -> bool {
    t.chunks(1024)
        .all(|part| part.iter().fold(0, |bits, x| bits | *x) == 0)
}

// A row: so many numbers of the input, and zeros after them.
fn same_row(row: &[u32], numbers: &mut Numbers) -> bool
    ensures { GoesOn numbers.old numbers.new }
{
    let Some(length) = numbers.next() else {
        return false;
    };
    let told = wide(length);
    let (given, zeros) = row.split_at(told.min(row.len()));
    let mut same = told <= row.len() && is_zero(zeros);
    for x in given {
        same &= numbers.next().unwrap_or(0) == *x;
    }
    same
}

// A table of rows of so many numbers; zeros after them.
fn same_table(t: &[u32], width: usize, numbers: &mut Numbers) -> bool
    requires { (0 < width) × (width ≤ 20) }
    ensures { GoesOn numbers.old numbers.new }
{
    let Some(rows) = numbers.next() else {
        return false;
    };
    let end = (width * wide(rows.min(4096))).min(t.len());
    let (given, zeros) = t.split_at(end);
    let mut same = rows <= 4096 && is_zero(zeros);
    for row in given.chunks(width) {
        same &= same_row(row, numbers);
    }
    same
}

fn all_zero(tables: &Tables) -> bool {
    is_zero(tables.facts) && is_zero(tables.captured) && is_zero(tables.arguments)
}

fn same_tables(tables: &Tables, numbers: &mut Numbers) -> bool
    ensures { GoesOn numbers.old numbers.new }
{
    let rows = same_table(tables.facts, ROW, numbers);
    let lists = same_table(tables.captured, LIST_ENTRY, numbers);
    let names = same_table(tables.arguments, LIST_ENTRY, numbers);
    rows && lists && names
}

// One answer: the refusal and its record, or the tables.
pub fn same_answer(answer: Result<(), Refusal>, tables: &Tables, numbers: &mut Numbers) -> bool
    ensures { GoesOn numbers.old numbers.new }
{
    let (Some(number), Some(record)) = (numbers.next(), numbers.next()) else {
        return false;
    };
    let (refused, at) = match answer {
        Ok(()) => (0, 0),
        Err(r) => (r.number(), r.record()),
    };
    let same = refused == number && at == wide(record) && is_zero(tables.work);
    if number != 0 {
        return same && all_zero(tables);
    }
    same_tables(tables, numbers) && same
}
