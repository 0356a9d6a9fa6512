// The last line: how many calls have a fact, how many of them are tail calls, and their share.
ghost use Rattle.std.specs.Prelude.{◌≡◌, ◌+◌, ◌*◌, ◌≤◌, length};
ghost use Rattle.semantic.specs.Rows.{Blank, row_width, put_row};
ghost use Rattle.semantic.specs.Kinds.{is_call_site, is_tail_row};
ghost use Rattle.semantic.specs.Leaves.{Tells};
ghost use Rattle.printing.specs.Text.{percent};
ghost use Rattle.printing.specs.Counts.{Counted, Summed};

use crate::text::Text;
use semantic::fields::{CALL_SITE, ROW, call};

// How many calls have a fact, and how many of them are of kind 2 or 3.
#[derive(Clone, Copy)]
pub struct Calls {
    pub all: u32,
    pub tail: u32,
}

fn is_call(facts: &[u32], at: usize) -> bool
    requires { row_width * at + row_width ≤ length facts.now }
    ensures { Tells put_row Blank is_call_site facts.now at result }
{
    facts[ROW * at] == CALL_SITE
}

fn is_tail(facts: &[u32], at: usize) -> bool
    requires { row_width * at + row_width ≤ length facts.now }
    ensures { Tells put_row Blank is_tail_row facts.now at result }
{
    is_call(facts, at) && facts[ROW * at + call::KIND] != 1
}

pub fn count_calls(facts: &[u32]) -> Calls
    requires { length facts.now ≤ 81920 }
    ensures { Counted facts.now result }
{
    let mut calls = Calls { all: 0, tail: 0 };
    for i in 0..facts.len() / ROW {
        calls.all += u32::from(is_call(facts, i));
        calls.tail += u32::from(is_tail(facts, i));
    }
    calls
}

// 100 * tail / all, rounded half up; 0 for no calls.
#[tactic(auto, unfolding(crate::specs::Text::percent))]
pub fn percent(all: u32, tail: u32) -> u64
    ensures { result ≡ percent all tail }
{
    if all == 0 {
        return 0;
    }
    (200 * (tail as u64) + all as u64) / (2 * (all as u64))
}

pub fn summary(facts: &[u32], out: &mut [u8]) -> usize
    requires { (length facts.now ≤ 81920) × (128 ≤ length out.old) }
    ensures { Summed facts.now out.new result }
{
    let Calls { all, tail } = count_calls(facts);
    let mut text = Text::new(out);
    text.number(b"calls=", all as u64);
    text.number(b" tail=", tail as u64);
    text.number(b" percent=", percent(all, tail));
    text.word(b"\n");
    text.len
}
