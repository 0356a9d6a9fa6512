#![tactic(auto)]
// Holds the port to the Rust's answers. The input and how it was made: tools/replay/make.py.
mod compare;
mod input;

ghost use Rattle.std.specs.Prelude.{◌≡◌, ◌≤◌, OnSome, IfSome, length};
ghost use Rattle.replay.specs.Counts.{IsPrefixLen};
ghost use Rattle.replay.specs.Reads.{GoesOn, IsShorter};

use answers::Tables;
use compare::same_answer;
use input::Numbers;
use std::io::Read;
use std::{fmt, io};
use table::wide;
use tree::record::WIDTH;

// How many trees there were, how many answers, and how many of those agreed.
#[derive(Clone, Copy, Default)]
struct Tally {
    trees: u64,
    answers: u64,
    agree: u64,
}

impl Tally {
    // A tree's two answers.
    fn add(&mut self, first: bool, second: bool) {
        self.trees = self.trees.saturating_add(1);
        self.answers = self.answers.saturating_add(2);
        self.agree = self
            .agree
            .saturating_add(u64::from(first) + u64::from(second));
    }
}

impl fmt::Display for Tally {
    fn fmt<W: fmt::Write>(&self, f: &mut fmt::Formatter<W>) -> fmt::Result {
        let Tally {
            trees,
            answers,
            agree,
        } = *self;
        write!(f, "trees={trees} answers={answers} agree={agree}")
    }
}

// Fills the table with what `of` makes of the next numbers; where the input ends, of zeros.
fn read_into<T: Copy, F: Fn(u32) -> T>(table: &mut [T], of: F, numbers: &mut Numbers)
    requires { F.IsAlwaysCallable of }
    ensures { GoesOn numbers.old numbers.new }
{
    for x in table.iter_mut() {
        *x = of(numbers.next().unwrap_or(0));
    }
}

#[derive(Clone, Copy)]
struct Case<'a> {
    classes: &'a [u8],
    records: &'a [u32],
}

// A case, if there is one. What does not fit the tables is cut.
fn read_case<'a>(
    classes: &'a mut [u8],
    records: &'a mut [u32],
    numbers: &mut Numbers,
) -> Option<Case<'a>>
    ensures onward { GoesOn numbers.old numbers.new }
    ensures more { OnSome result (IsShorter numbers.old numbers.new) }
    ensures in_bounds { IfSome result (λ c. (length c.classes.now ≤ length classes.old) × (length c.records.now ≤ length records.old)) }
{
    let names = wide(numbers.next()?).min(classes.len());
    let classes = &mut classes[..names];
    read_into(classes, |n| (n % 256) as u8, numbers);
    let count = wide(numbers.next().unwrap_or(0));
    let size = (WIDTH * count).min(records.len());
    let records = &mut records[..size];
    read_into(records, |n| n, numbers);
    Some(Case { classes, records })
}

fn replay(
    classes: &mut [u8],
    records: &mut [u32],
    tables: &mut Tables,
    mut numbers: Numbers,
) -> Tally {
    let mut tally = Tally::default();
    // Each case takes the numbers after the one before it and those of its answers.
    while let Some(case) = read_case(classes, records, &mut numbers) {
        let one = analysis::fresh(
            case.records,
            case.classes,
            tables.facts,
            tables.captured,
            tables.arguments,
            tables.work,
        );
        let first = same_answer(one, tables, &mut numbers);
        let two = analysis::settled(
            case.records,
            case.classes,
            tables.facts,
            tables.captured,
            tables.arguments,
            tables.work,
        );
        let second = same_answer(two, tables, &mut numbers);
        tally.add(first, second);
    }
    tally
}

// Room for a part of the input. The length alone is told.
fn space() -> [u8; 1048576]
    ensures { 1048576 ≡ length result }
{
    [0; 1048576]
}

// Reads until the buffer is full, the input ends or a read fails, and answers how many bytes it put at its start.
fn read_full(from: &mut impl Read, buf: &mut [u8]) -> usize
    ensures { IsPrefixLen result buf.new }
{
    // No method of `Read` tells how much there was where the input ended or a read failed.
    let mut done = 0;
    while done < buf.len() {
        let n = from.read(&mut buf[done..]).unwrap_or(0);
        if n == 0 {
            break;
        }
        done += n;
    }
    done
}

// How many bytes the next part has: the number in the 8 bytes before it; 0 at the end.
fn next_size(from: &mut impl Read) -> usize {
    let mut line = [0u8; 8];
    let end = read_full(from, &mut line);
    Numbers::new(&line[..end]).next().map_or(0, wide)
}

// The next part; answers how many bytes there were. What does not fit is cut.
fn read_part(from: &mut impl Read, input: &mut [u8]) -> usize
    ensures { IsPrefixLen result input.new }
{
    let size = next_size(from).min(input.len());
    read_full(from, &mut input[..size])
}

// Answers whether there was such a part. There is room for one name and one record more than are taken: for refusal 2.
fn replay_part(rt: &impl Print, from: &mut impl Read, part: u64) -> io::Result<bool> {
    let mut input = space();
    let end = read_part(from, &mut input);
    if end == 0 {
        return Ok(false);
    }
    let mut tables = Tables {
        facts: &mut [0; 81920],
        captured: &mut [0; 53248],
        arguments: &mut [0; 53248],
        work: &mut [0; 59392],
    };
    let tally = replay(
        &mut [0; 1025],
        &mut [0; 24582],
        &mut tables,
        Numbers::new(&input[..end]),
    );
    println!(rt; "part={part} {tally}")?;
    Ok(true)
}

fn main(rt: HostRuntime) -> io::Result<()> {
    for part in 1..=64 {
        if !replay_part(&rt, &mut rt.stdin(), part)? {
            break;
        }
    }
    Ok(())
}
