// Calls, as they close: last uses among the arguments, and their fact. What a set! does to the context.
ghost use Rattle.std.specs.Prelude.{◌≡◌, ◌&&◌, ltb, ◌+◌, ◌*◌, ◌≤◌, ◌<◌, length};
ghost use Rattle.pass.specs.Run.{rows_most, facts_length};
ghost use Rattle.semantic.specs.Rows.{row_width, put_row, CallSite};
ghost use Rattle.semantic.specs.Leaves.{Stores};
ghost use Rattle.pass.specs.Visit.{call_kind};
ghost use Rattle.work.specs.Passes.{in_context};
ghost use Rattle.forms.specs.Contract.{CallFits, ClosesCall, ClearsContext};
ghost use Rattle.tree.specs.Record.{records, nth};
ghost use Rattle.forms.specs.Calls.{constant_record, Mentioned, IsLast, ArgumentFits, MarksArgument, ArgumentsFit, MarksArguments, MarksIfTail, TellsSelf, Called, MakesCall};

use semantic::{CallKind, CallSiteInformation, NONE, Span};
use table::wide;
use tree::form::{AND, CONSTANT, IDENTIFIER};
use walk::body::core_at;
use walk::extent::step_over;
use work::Pass;
use work::entries::load_entry;
use work::scope::newest;

// Whether the identifier's last use so far is the one at the record.
fn is_last_use(all: &[u32], at: usize, p: Pass, work: &[u32]) -> bool
    requires { Mentioned all.now at p work.now }
    ensures { IsLast all.now at p work.now result }
{
    let Some(b) = newest(p, work, tree::record::name(all, at)) else {
        return false;
    };
    let last = load_entry(work, b).last;
    last != 0 && tree::record::id(all, wide(last - 1)) == tree::record::id(all, at)
}

// An argument that is an identifier is marked where it is its name's last use so far.
fn mark_argument(all: &[u32], at: usize, p: Pass, facts: &mut [u32], work: &[u32])
    requires { ArgumentFits all.now at p facts.old work.now }
    ensures { MarksArgument all.now at p facts.old work.now facts.new }
{
    if tree::record::form(all, at) == IDENTIFIER && is_last_use(all, at, p, work) {
        semantic::amend::mark_last_usage(facts, at);
    }
}

// k arguments, the first at the record `first`.
fn mark_arguments(all: &[u32], first: usize, k: usize, p: Pass, facts: &mut [u32], work: &[u32])
    requires { ArgumentsFit all.now first k p facts.old work.now }
    ensures { MarksArguments all.now first k p facts.old work.now facts.new }
{
    let mut at = first;
    for i in 0..k {
        mark_argument(all, core_at(all, at), p, facts, work);
        at += step_over(all, at, k - 1 - i);
    }
}

// Whether the fact at the record refers to the define that the walk is in.
pub fn is_self(at: usize, p: Pass, facts: &[u32]) -> bool
    requires { (at < rows_most) × (length facts.now ≡ facts_length) }
    ensures { TellsSelf at p facts.now result }
{
    p.context != NONE && semantic::kinds::refers_at(facts, at) == p.context
}

fn call_kind(tail: bool, own: bool, k: u32) -> CallKind
    ensures { result ≡ call_kind tail own k }
{
    if !tail {
        CallKind::Normal
    } else if own {
        CallKind::SelfTailCall(k)
    } else {
        CallKind::TailCall
    }
}

fn call_site(at: usize, kind: CallKind, span: Span, facts: &mut [u32])
    requires { row_width * at + row_width ≤ length facts.old }
    ensures { Stores put_row facts.old at (CallSite (record { kind = kind; span = span })) facts.new }
{
    semantic::rows::store(facts, at, CallSiteInformation::new(kind, span));
}

// Whether the tree at the record is a constant: an and of none is #t.
fn is_constant(all: &[u32], at: usize) -> bool
    requires { at < length (records all.now) }
    ensures { result ≡ constant_record (nth all.now at) }
{
    let form = tree::record::form(all, at);
    form == CONSTANT || form == AND && tree::record::count(all, at) == 0
}

// A constant head leaves no fact.
fn call_fact(all: &[u32], at: usize, tail: bool, k: u32, p: Pass, facts: &mut [u32])
    requires { Called all.now at p facts.old }
    ensures { MakesCall all.now at tail k p facts.old facts.new }
{
    let head = core_at(all, at + 1);
    if is_constant(all, head) {
        return;
    }
    if tree::record::form(all, head) == IDENTIFIER {
        let own = is_self(head, p, facts);
        let span = names::facts::span_at(all, head);
        call_site(at, call_kind(tail, own, k), span, facts);
        return;
    }
    let span = names::facts::span_at(all, at);
    call_site(at, call_kind(tail, false, k), span, facts);
}

// A call in tail position is a tail call above the bottom layer.
fn is_tail(tail: bool, p: Pass) -> bool
    ensures { result ≡ (tail && ltb 1 p.scope.depth) }
{
    tail && 1 < p.depth()
}

fn mark_if_tail(
    all: &[u32],
    first: usize,
    k: usize,
    eligible: bool,
    p: Pass,
    facts: &mut [u32],
    work: &[u32],
)
    requires { ArgumentsFit all.now first k p facts.old work.now }
    ensures { MarksIfTail all.now first k eligible p facts.old work.now facts.new }
{
    if eligible {
        mark_arguments(all, first, k, p, facts, work);
    }
}

// The call at the record, with k arguments, the first at the record `first`.
pub fn close_call(
    all: &[u32],
    at: usize,
    first: usize,
    k: usize,
    tail: bool,
    counter: u32,
    p: Pass,
    facts: &mut [u32],
    work: &[u32],
)
    requires { CallFits all.now at first k p facts.old work.now }
    ensures { ClosesCall all.now at first k tail counter p facts.old work.now facts.new }
{
    let eligible = is_tail(tail, p);
    mark_if_tail(all, first, k, eligible, p, facts, work);
    call_fact(all, at, eligible, counter, p, facts);
}

// set!: on a second run the context ends where the target referred to it. Answers the context.
pub fn clear_context(at: usize, p: Pass, facts: &[u32]) -> u32
    requires { (at < rows_most) × (length facts.now ≡ facts_length) }
    ensures { ClearsContext at p facts.now (in_context result p) }
{
    if is_self(at, p, facts) {
        NONE
    } else {
        p.context
    }
}
