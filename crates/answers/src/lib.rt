#![tactic(auto)]
// What an operation answers: the refusals and their numbers; and the tables that are lent to it, with check 1.
pub mod clear;

ghost use Rattle.std.specs.Prelude.{◌≡◌};
ghost use Rattle.pass.specs.Run.{fitting};
ghost use Rattle.work.specs.Coded.{second_of};
ghost use Rattle.answers.specs.Answer.{numbered, refusal_in, Told, tables};
ghost use Rattle.answers.specs.Lent.{held};
ghost use Rattle.answers.specs.Noted.{first_in};

use table::wide;
use tree::record::WIDTH;
use work::{Pass, SecondRefusal, WORK};

pub const FACTS: usize = 81920;

pub const LIST_ENTRIES: usize = 53248;

// Why a script is refused, with the record that it applies to.
#[derive(Clone, Copy, PartialEq, Eq)]
pub enum Refusal {
    // 1: no whole records, or a lent table that is not of its set length
    Lengths,
    // 1 to 8 and 16: a check
    Unfit(checks::Refusal),
    // 9: a name that is live in its layer enters again
    NameTwice(usize),
    // 10: a list entry that has no room
    ListsFull(usize),
    // 11 and 12: of a second run
    Second(SecondRefusal),
}

impl From<checks::Refusal> for Refusal {
    ghost use Rattle.answers.specs.declared.Refusal.TheVariants.{Unfit};

    ghost from_gives = { λ r e. e ≡ Unfit r };

    fn from(check: checks::Refusal) -> Self {
        Refusal::Unfit(check)
    }
}

impl Refusal {
    // The document's number for it.
    pub fn number(self) -> u32
        ensures { result ≡ (numbered self).number }
    {
        match self {
            Refusal::Lengths => 1,
            Refusal::Unfit(r) => r.number(),
            Refusal::NameTwice(_) => 9,
            Refusal::ListsFull(_) => 10,
            Refusal::Second(SecondRefusal::NoLambda(_)) => 11,
            Refusal::Second(SecondRefusal::NoCapture(_)) => 12,
        }
    }

    pub fn record(self) -> usize
        ensures { result ≡ (numbered self).at }
    {
        match self {
            Refusal::Lengths => 0,
            Refusal::Unfit(r) => r.record(),
            Refusal::NameTwice(at) => at,
            Refusal::ListsFull(at) => at,
            Refusal::Second(SecondRefusal::NoLambda(at)) => wide(at),
            Refusal::Second(SecondRefusal::NoCapture(at)) => wide(at),
        }
    }
}

// The tables that a caller lends, of any lengths: that they have their set ones is what check 1 tells, so it is asked and no invariant.
#[derive(Drop)]
pub struct Tables<'a> {
    pub facts: &'a mut [u32],
    pub captured: &'a mut [u32],
    pub arguments: &'a mut [u32],
    pub work: &'a mut [u32],
}

// Check 1: whole records, and every lent table of its set length.
pub fn fit(
    records: &[u32],
    facts: &[u32],
    captured: &[u32],
    arguments: &[u32],
    work: &[u32],
) -> bool
    ensures { result ≡ fitting records.now (tables facts.now captured.now arguments.now work.now) }
{
    if records.len() % WIDTH != 0 {
        return false;
    }
    if facts.len() != FACTS {
        return false;
    }
    if captured.len() != LIST_ENTRIES {
        return false;
    }
    if arguments.len() != LIST_ENTRIES {
        return false;
    }
    work.len() == WORK
}

impl Tables<'_> {
    pub fn fit(&self, records: &[u32]) -> bool
        ensures { result ≡ fitting records.now (held self.now) }
    {
        fit(
            records,
            self.facts,
            self.captured,
            self.arguments,
            self.work,
        )
    }
}

// 9 covers the whole input before 10.
pub fn refused_first(p: Pass) -> Result<(), Refusal>
    ensures refusal { refusal_in result ≡ first_in p }
    ensures told { Told result }
{
    if let Some(at) = p.nine {
        return Err(Refusal::NameTwice(wide(at)));
    }
    if let Some(at) = p.ten {
        return Err(Refusal::ListsFull(wide(at)));
    }
    Ok(())
}

pub fn refused_second(p: Pass) -> Result<(), Refusal>
    ensures refusal { refusal_in result ≡ second_of p.second }
    ensures told { Told result }
{
    p.second.map_or(Ok(()), |r| Err(Refusal::Second(r)))
}
