#![tactic(auto)]
// What `fresh` and `settled` leave in lent tables that are filled beforehand, of their set lengths and of others. The lines of the file `stdout` are
// not this program's but document 01's: refusal 1 at record 0 where the records are no multiple of six or a table is not of its set length, and the
// tables as they were; all zero after every other refusal; the work table zero after every call but 1.
mod lengths;
mod look;

ghost use Rattle.answers.specs.Lent.{held, outcome_in};
ghost use Rattle.analysis_main.specs.Tried.{Runs};
ghost use Rattle.analysis_main.specs.Lengths.{FitRoom};

use answers::{FACTS, LIST_ENTRIES, Refusal, Tables};
use lengths::{Lengths, NONE, SET};
use look::{FILLING, say};
use std::{fmt, io};
use work::WORK;

// (lambda (x) x), and the same with a form at record 2 that there is not.
const SCRIPT: [u32; 18] = [6, 1, 0, 1, 0, 0, 1, 2, 0, 0, 0, 0, 1, 3, 0, 0, 0, 0];

const UNFIT: [u32; 18] = [6, 1, 0, 1, 0, 0, 1, 2, 0, 0, 0, 0, 13, 3, 0, 0, 0, 0];

#[derive(Clone, Copy)]
enum Operation {
    Fresh,
    Settled,
}

impl Operation {
    fn run(self, records: &[u32], classes: &[u8], tables: &mut Tables) -> Result<(), Refusal>
        ensures { Runs self classes.now records.now (held tables.old) (outcome_in result tables.new) }
    {
        match self {
            Operation::Fresh => analysis::fresh(
                records,
                classes,
                tables.facts,
                tables.captured,
                tables.arguments,
                tables.work,
            ),
            Operation::Settled => analysis::settled(
                records,
                classes,
                tables.facts,
                tables.captured,
                tables.arguments,
                tables.work,
            ),
        }
    }
}

impl fmt::Display for Operation {
    fn fmt<W: fmt::Write>(&self, f: &mut fmt::Formatter<W>) -> fmt::Result {
        match self {
            Operation::Fresh => write!(f, "fresh"),
            Operation::Settled => write!(f, "settled"),
        }
    }
}

// A line of what the call answers and of what it leaves. It is lent the first numbers of arrays that are one number longer than the set lengths.
fn call(
    rt: &impl Print,
    operation: Operation,
    name: &str,
    records: &[u32],
    classes: &[u8],
    lengths: Lengths,
) -> io::Result<()>
    requires { FitRoom lengths }
{
    print!(rt; "{name}: ")?;
    let mut facts = [FILLING; FACTS + 1];
    let mut captured = [FILLING; LIST_ENTRIES + 1];
    let mut arguments = [FILLING; LIST_ENTRIES + 1];
    let mut work = [FILLING; WORK + 1];
    let mut tables = Tables {
        facts: &mut facts[..lengths.facts],
        captured: &mut captured[..lengths.captured],
        arguments: &mut arguments[..lengths.arguments],
        work: &mut work[..lengths.work],
    };
    let answer = operation.run(records, classes, &mut tables);
    say(rt, answer, &tables)
}

// A script that is accepted where the lengths are right.
fn script(rt: &impl Print, operation: Operation, name: &str, lengths: Lengths) -> io::Result<()>
    requires { FitRoom lengths }
{
    call(rt, operation, name, &SCRIPT, &[0; 1], lengths)
}

fn wrong_lengths(rt: &impl Print, operation: Operation) -> io::Result<()> {
    let facts = FACTS - 1;
    script(rt, operation, "facts short", Lengths { facts, ..SET })?;
    let captured = LIST_ENTRIES - 1;
    script(rt, operation, "captured short", Lengths { captured, ..SET })?;
    let arguments = LIST_ENTRIES - 1;
    script(
        rt,
        operation,
        "arguments short",
        Lengths { arguments, ..SET },
    )?;
    let work = WORK - 1;
    script(rt, operation, "work short", Lengths { work, ..SET })?;
    let facts = FACTS + 1;
    script(rt, operation, "facts long", Lengths { facts, ..SET })?;
    let captured = LIST_ENTRIES + 1;
    script(rt, operation, "captured long", Lengths { captured, ..SET })?;
    let arguments = LIST_ENTRIES + 1;
    script(
        rt,
        operation,
        "arguments long",
        Lengths { arguments, ..SET },
    )?;
    let work = WORK + 1;
    script(rt, operation, "work long", Lengths { work, ..SET })?;
    script(rt, operation, "no facts", Lengths { facts: 0, ..SET })?;
    script(rt, operation, "no tables", NONE)?;
    let seven = [13, 1, 0, 1, 0, 0, 1];
    call(rt, operation, "1 number", &[6], &[0; 1], SET)?;
    call(rt, operation, "5 numbers", &[6, 1, 0, 1, 0], &[0; 1], SET)?;
    call(rt, operation, "7 numbers, unfit", &seven, &[0; 1], SET)?;
    call(
        rt,
        operation,
        "work long, unfit",
        &UNFIT,
        &[0; 1],
        Lengths { work, ..SET },
    )
}

fn set_lengths(rt: &impl Print, operation: Operation) -> io::Result<()> {
    call(rt, operation, "1025 names", &SCRIPT, &[0; 1025], SET)?;
    call(rt, operation, "form 13", &UNFIT, &[0; 1], SET)?;
    call(rt, operation, "(lambda (x) x)", &SCRIPT, &[0; 1], SET)?;
    call(rt, operation, "no records", &[0; 0], &[0; 0], SET)
}

fn main(rt: HostRuntime) -> io::Result<()> {
    for operation in [Operation::Fresh, Operation::Settled] {
        println!(rt; "{operation}")?;
        wrong_lengths(&rt, operation)?;
        set_lengths(&rt, operation)?;
    }
    Ok(())
}
