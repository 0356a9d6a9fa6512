#![tactic(auto)]
// The C interface: both runs. To C a slice is a pointer and a length. The version of the interface stands in the functions' names, so that a header and an archive
// of different versions do not link; the header gives the functions their plain names.
ghost use Rattle.std.specs.Prelude.{◌≡◌};
ghost use Rattle.pass.specs.Run.{Fresh, Settled};
ghost use Rattle.answers.specs.Answer.{tables, refusal_in};
ghost use Rattle.scheme_analysis.specs.Told.{Tells, number_told, record_told};

use answers::Refusal;

fn number_told(answer: Result<(), Refusal>) -> u32
    ensures { result ≡ number_told (refusal_in answer) }
{
    answer.err().map_or(0, Refusal::number)
}

fn record_told(answer: Result<(), Refusal>) -> usize
    ensures { result ≡ record_told (refusal_in answer) }
{
    answer.err().map_or(0, Refusal::record)
}

#[unsafe(no_mangle)]
pub extern "C" fn scheme_analysis_fresh_v2(
    records: &[u32],
    classes: &[u8],
    facts: &mut [u32],
    captured: &mut [u32],
    arguments: &mut [u32],
    work: &mut [u32],
    at: &mut usize,
) -> u32
    ensures { Tells Fresh classes.now records.now (tables facts.old captured.old arguments.old work.old)
        result at.new (tables facts.new captured.new arguments.new work.new) }
{
    let answer = analysis::fresh(records, classes, facts, captured, arguments, work);
    *at = record_told(answer);
    number_told(answer)
}

#[unsafe(no_mangle)]
pub extern "C" fn scheme_analysis_settled_v2(
    records: &[u32],
    classes: &[u8],
    facts: &mut [u32],
    captured: &mut [u32],
    arguments: &mut [u32],
    work: &mut [u32],
    at: &mut usize,
) -> u32
    ensures { Tells Settled classes.now records.now (tables facts.old captured.old arguments.old work.old)
        result at.new (tables facts.new captured.new arguments.new work.new) }
{
    let answer = analysis::settled(records, classes, facts, captured, arguments, work);
    *at = record_told(answer);
    number_told(answer)
}
