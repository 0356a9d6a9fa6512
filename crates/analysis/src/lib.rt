#![tactic(auto)]
// The pass over lent tables: the fresh run and the settled run.
ghost use Rattle.std.specs.Prelude.{◌%◌, ◌≤◌, ◌≡◌, length, replicate};
ghost use Rattle.tree.specs.Record.{width};
ghost use Rattle.tree.specs.Starts.{TellsStarts};
ghost use Rattle.pass.specs.Run.{Fresh, Settled, Answers, fresh_outcome, settled_outcome};
ghost use Rattle.answers.specs.Answer.{tables, outcome_of, Told};
ghost use Rattle.answers.specs.Lent.{held, outcome_in, Same};
ghost use Rattle.answers.specs.Clear.{Blank};
ghost use Rattle.visits.specs.Runs.{Ready, Runs};
ghost use Rattle.analysis.specs.Steps.{raw_in, outcome_by, StartsFit, Begins, Ends, Checks};

use answers::clear::clear_names;
use answers::{Refusal, Tables, refused_first, refused_second};
use visits::run::run_with_scope;
use work::Pass;

// A run over the lent tables.
fn run_with(tops: &[u16], classes: &[u8], records: &[u32], p: Pass, tables: &mut Tables) -> Pass
    requires tells_starts { TellsStarts (length classes.now) records.now tops.now }
    requires ready { Ready classes.now records.now (raw_in p tables.old) }
    ensures runs { Runs classes.now records.now (raw_in p tables.old) (raw_in result tables.new) }
    ensures same { Same tables.old tables.new }
{
    run_with_scope(
        tops,
        classes,
        records,
        p,
        tables.facts,
        tables.captured,
        tables.arguments,
        tables.work,
    )
}

fn run_once(
    tops: &[u16],
    classes: &[u8],
    records: &[u32],
    tables: &mut Tables,
) -> Result<(), Refusal>
    requires tells_starts { TellsStarts (length classes.now) records.now tops.now }
    requires begins { Begins classes.now records.now (held tables.old) }
    ensures ends { Ends fresh_outcome classes.now records.now (outcome_in result tables.new) }
    ensures told { Told result }
    ensures same { Same tables.old tables.new }
{
    let p = run_with(tops, classes, records, Pass::new(0, 0), tables);
    refused_first(p)
}

fn run_twice(
    tops: &[u16],
    classes: &[u8],
    records: &[u32],
    tables: &mut Tables,
) -> Result<(), Refusal>
    requires tells_starts { TellsStarts (length classes.now) records.now tops.now }
    requires begins { Begins classes.now records.now (held tables.old) }
    ensures ends { Ends settled_outcome classes.now records.now (outcome_in result tables.new) }
    ensures told { Told result }
    ensures same { Same tables.old tables.new }
{
    let p = run_with(tops, classes, records, Pass::new(0, 0), tables);
    refused_first(p)?;
    clear_names(tables.work, tree::record::len(records));
    let again = Pass::new(p.captured_top, p.arguments_top);
    let q = run_with(tops, classes, records, again, tables);
    refused_second(q)
}

// The checks, then the runs, with a table of N numbers for where the trees start. Which runs is a bool: a closure's contract would have to say that it
// meets `ends`, which is no plainer.
fn run_listed<const N: usize>(
    records: &[u32],
    classes: &[u8],
    twice: bool,
    tables: &mut Tables,
) -> Result<(), Refusal>
    requires few { N ≤ 4097 }
    requires starts_fit { StartsFit records.now (replicate N 0) }
    requires blank { Blank (held tables.old) }
    ensures checks { Checks (outcome_by twice) classes.now records.now (outcome_in result tables.new) }
    ensures told { length records.now % width ≡ 0 → Told result }
    ensures same { Same tables.old tables.new }
{
    let mut tops = [0u16; N];
    checks::check(records, classes.len(), &mut tops)?;
    if twice {
        run_twice(&tops, classes, records, tables)
    } else {
        run_once(&tops, classes, records, tables)
    }
}

// A script of at most this many records has the smaller table.
const FEW: usize = 512;

const FEW_STARTS: usize = 513;

const STARTS: usize = 4097;

// The table of where the trees start has one of two sizes: clearing the larger one shows in the time of a small script (docs/SPEED.md, 52).
fn run_checked(
    records: &[u32],
    classes: &[u8],
    twice: bool,
    tables: &mut Tables,
) -> Result<(), Refusal>
    requires { Blank (held tables.old) }
    ensures checks { Checks (outcome_by twice) classes.now records.now (outcome_in result tables.new) }
    ensures told { length records.now % width ≡ 0 → Told result }
    ensures same { Same tables.old tables.new }
{
    if tree::record::len(records) <= FEW {
        run_listed::<FEW_STARTS>(records, classes, twice, tables)
    } else {
        run_listed::<STARTS>(records, classes, twice, tables)
    }
}

fn run(records: &[u32], classes: &[u8], twice: bool, tables: &mut Tables) -> Result<(), Refusal>
    ensures answers { Answers (outcome_by twice) classes.now records.now (held tables.old) (outcome_in result tables.new) }
    ensures told { Told result }
    ensures same { Same tables.old tables.new }
{
    if !tables.fit(records) {
        return Err(Refusal::Lengths);
    }
    tables.clear_start();
    let answer = run_checked(records, classes, twice, tables);
    tables.clear_after(answer, tree::record::len(records));
    answer
}

pub fn fresh(
    records: &[u32],
    classes: &[u8],
    facts: &mut [u32],
    captured: &mut [u32],
    arguments: &mut [u32],
    work: &mut [u32],
) -> Result<(), Refusal>
    ensures answers { Fresh classes.now records.now (tables facts.old captured.old arguments.old work.old)
        (outcome_of result facts.new captured.new arguments.new work.new) }
    ensures told { Told result }
{
    let mut lent = Tables {
        facts,
        captured,
        arguments,
        work,
    };
    run(records, classes, false, &mut lent)
}

pub fn settled(
    records: &[u32],
    classes: &[u8],
    facts: &mut [u32],
    captured: &mut [u32],
    arguments: &mut [u32],
    work: &mut [u32],
) -> Result<(), Refusal>
    ensures answers { Settled classes.now records.now (tables facts.old captured.old arguments.old work.old)
        (outcome_of result facts.new captured.new arguments.new work.new) }
    ensures told { Told result }
{
    let mut lent = Tables {
        facts,
        captured,
        arguments,
        work,
    };
    run(records, classes, true, &mut lent)
}
