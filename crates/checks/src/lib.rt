#![tactic(auto)]
// The checks 1 to 8 and 16.
ghost use Rattle.std.specs.Prelude.{◌≡◌, ℕ, ◌≤◌, ◌<◌, length, IfSome, MatchOption};
ghost use Rattle.tree.specs.Record.{records};
ghost use Rattle.tree.specs.Check.{refusal};
ghost use Rattle.checks.specs.Private.Order.{from3, from8};
ghost use Rattle.checks.specs.Answer.{numbered, refusal_of};
ghost use Rattle.checks.specs.Leaves.{Leaves};
ghost use Rattle.tree.specs.Starts.{TellsStarts};

use scans::{MOST_RECORDS, ids, nest, scan};
use tree::record;

mod sweep;

const MOST_NAMES: usize = 1024;

// The check that refuses, with the first record it applies to.
#[derive(Clone, Copy, PartialEq, Eq, Debug)]
pub enum Refusal {
    // 1: the numbers are no whole records
    Ragged,
    // 2: too many records or names
    TooMany,
    // 3: a field outside the table
    Field(usize),
    // 4: children missing at the end
    Missing(usize),
    // 5: nested too deep
    Deep(usize),
    // 6: a name's place held by another form
    NotAName(usize),
    // 7: a call of nothing
    EmptyCall(usize),
    // 16: a when or an unless without a test
    Untested(usize),
    // 8: an id used twice
    Repeated(usize),
}

impl Refusal {
    // The document's number.
    pub fn number(self) -> u32
        ensures { result ≡ (numbered self).number }
    {
        match self {
            Refusal::Ragged => 1,
            Refusal::TooMany => 2,
            Refusal::Field(_) => 3,
            Refusal::Missing(_) => 4,
            Refusal::Deep(_) => 5,
            Refusal::NotAName(_) => 6,
            Refusal::EmptyCall(_) => 7,
            Refusal::Untested(_) => 16,
            Refusal::Repeated(_) => 8,
        }
    }

    // The first record that the check applies to; 0 where it looks at none.
    pub fn record(self) -> usize
        ensures { result ≡ (numbered self).at }
    {
        match self {
            Refusal::Ragged | Refusal::TooMany => 0,
            Refusal::Field(i)
            | Refusal::Missing(i)
            | Refusal::Deep(i)
            | Refusal::NotAName(i)
            | Refusal::EmptyCall(i)
            | Refusal::Untested(i)
            | Refusal::Repeated(i) => i,
        }
    }
}

// A check refuses the record that it has found.
fn refuse<F: FnOnce(usize) -> Refusal>(found: Option<usize>, refusal: F) -> Result<(), Refusal>
    requires { IfSome found (λ i. F.pre refusal i) }
    ensures { MatchOption found (result ≡ Ok tt) (λ i. (r : Refusal) × F.post refusal i r × (result ≡ Err r)) }
{
    match found {
        Some(i) => Err(refusal(i)),
        None => Ok(()),
    }
}

// 8, where none of the checks before it applies.
fn last(rs: &[u32]) -> Result<(), Refusal>
    requires { length (records rs.now) ≤ 4096 }
    ensures { (N : ℕ) → refusal_of result ≡ from8 N rs.now }
{
    refuse(ids::repeated_id(rs), Refusal::Repeated)
}

// 3 to 7, 16 and 8 in order, each over all the records before the next.
fn in_order(rs: &[u32], names: usize) -> Result<(), Refusal>
    requires { length (records rs.now) ≤ 4096 }
    ensures { refusal_of result ≡ from3 names rs.now }
{
    refuse(scan::field_outside(rs, names), Refusal::Field)?;
    refuse(scan::child_missing(rs), Refusal::Missing)?;
    refuse(nest::too_deep(rs), Refusal::Deep)?;
    refuse(scan::not_a_name(rs), Refusal::NotAName)?;
    refuse(scan::empty_call(rs), Refusal::EmptyCall)?;
    refuse(scan::untested(rs), Refusal::Untested)?;
    last(rs)
}

// The first check that refuses. Most trees pass 3 to 7 and 16: one pass tells (docs/SPEED.md, 41). A table of more numbers than there are records is
// told where the trees of a script that is fit start and where they end; the numbers behind those are as they were. After 1 and 2, and where the table
// is too short, all of it is as it was. After any other its start is left free: at most as many numbers as there are records at top level and one more, each
// as it was or at most the record count.
pub fn check(rs: &[u32], names: usize, tops: &mut [u16]) -> Result<(), Refusal>
    ensures result_value { refusal_of result ≡ refusal names rs.now }
    ensures told { refusal_of result ≡ None → length (records rs.now) < length tops.old → TellsStarts names rs.now tops.new }
    ensures leaves { Leaves names rs.now tops.old tops.new }
{
    if rs.len() % record::WIDTH != 0 {
        return Err(Refusal::Ragged);
    }
    if MOST_RECORDS < record::len(rs) || MOST_NAMES < names {
        return Err(Refusal::TooMany);
    }
    if record::len(rs) < tops.len() && sweep::clear(rs, names, tops) {
        return last(rs);
    }
    in_order(rs, names)
}
