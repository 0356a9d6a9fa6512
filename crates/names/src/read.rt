// An identifier is read, and what set! does to its name. The tables stay parameters of their own, and in no struct: a step takes those that it reads
// and lends on those that it changes, so its contract needs no word on the others.
ghost use Rattle.std.specs.Prelude.{◌≡◌, ◌+◌, ◌*◌, ◌≤◌, ◌<◌, length};
ghost use Rattle.semantic.specs.Rows.{row_width};
ghost use Rattle.pass.specs.Read.{depth_one, current_layer, home_slot, read};
ghost use Rattle.pass.specs.Run.{rows_most};
ghost use Rattle.work.specs.Works.{Spacious, work_long};
ghost use Rattle.work.specs.Passes.{with_second};
ghost use Rattle.names.specs.Contract.{Readable, Does, Decided, Decides, Settable, Mutates};
ghost use Rattle.names.specs.Steps.{DecidesCapture, Bound, ToldPrelude, ToldDepth, ReadsBy, PutsUse};
ghost use Rattle.names.specs.Steps.{NotesTaken, Takeable, UsesTaken, TakenBound, ReadsTaken};

use crate::facts::{free_fact, global_fact, home_fact, local_fact, span_at, taken_fact};
use semantic::{NONE, ScopeInfo};
use table::wide;
use walk::body::{PRELUDE, is_class};
use work::captures::Capture;
use work::entries::Entry;
use work::{Pass, SecondRefusal, narrow};

// Which rule decides a read. The numbers are the binder's record and, of a capture, its place and its row of the captured entries.
#[derive(Clone, Copy)]
pub enum Rule {
    NoEntry,
    DepthOne(usize),
    CurrentLayer(usize),
    TakenCapture(usize, usize, usize),
    HomeSlot(usize),
}

fn capture_rule(p: Pass, work: &[u32], name: u32, b: usize) -> Rule
    requires { Spacious p work.now }
    ensures { DecidesCapture p work.now name b result }
{
    let Some(found) = work::captures::newest_capture(p, work, name) else {
        return Rule::HomeSlot(b);
    };
    Rule::TakenCapture(b, found.row, wide(found.value))
}

pub fn rule_of(p: Pass, work: &[u32], name: u32) -> Rule
    requires { Decided p work.now }
    ensures { Decides p work.now name result }
{
    let Some(b) = work::scope::newest(p, work, name) else {
        return Rule::NoEntry;
    };
    let e = work::entries::load_entry(work, b);
    if e.depth == 1 {
        return Rule::DepthOne(b);
    }
    if e.depth == p.depth() {
        return Rule::CurrentLayer(b);
    }
    capture_rule(p, work, name, b)
}

fn read_global(all: &[u32], at: usize, prelude: bool, b: usize, facts: &mut [u32], work: &mut [u32])
    requires { Bound all.now at b facts.old work.old }
    ensures { ReadsBy depth_one (ToldPrelude prelude) all.now at b
        facts.old work.old facts.new work.new }
{
    let e = work::entries::load_entry(work, b).used();
    work::entries::store_entry(work, b, e);
    semantic::amend::one_use_more(facts, b);
    let fact = global_fact(prelude, tree::record::id(all, b), span_at(all, at));
    semantic::rows::store(facts, at, fact);
}

// The entry e of the binder at b after its use; the binder's fact takes its uses.
fn put_use(b: usize, e: Entry, facts: &mut [u32], work: &mut [u32])
    requires { (length work.old ≡ work_long) × (b < rows_most)
        × (e.uses < 536870912) × (row_width * b + row_width ≤ length facts.old) }
    ensures { PutsUse b e facts.old work.old facts.new work.new }
{
    work::entries::store_entry(work, b, e);
    semantic::amend::with_usage_count(facts, b, e.uses);
}

fn read_local(all: &[u32], at: usize, depth: u32, b: usize, facts: &mut [u32], work: &mut [u32])
    requires { Bound all.now at b facts.old work.old }
    ensures { ReadsBy current_layer (ToldDepth depth) all.now at b
        facts.old work.old facts.new work.new }
{
    let e = work::entries::load_entry(work, b).used().used_by(at);
    put_use(b, e, facts, work);
    let fact = local_fact(depth, tree::record::id(all, b), e, span_at(all, at));
    semantic::rows::store(facts, at, fact);
}

fn read_home(all: &[u32], at: usize, depth: u32, b: usize, facts: &mut [u32], work: &mut [u32])
    requires { Bound all.now at b facts.old work.old }
    ensures { ReadsBy home_slot (ToldDepth depth) all.now at b
        facts.old work.old facts.new work.new }
{
    let e = work::entries::load_entry(work, b)
        .used()
        .used_by(at)
        .capture();
    put_use(b, e, facts, work);
    let fact = home_fact(depth, tree::record::id(all, b), e, span_at(all, at));
    semantic::rows::store(facts, at, fact);
}

// Refusal 12: a read offset and no capture offset.
fn note_taken(v: ScopeInfo, at: usize, before: Option<SecondRefusal>) -> Option<SecondRefusal>
    requires { at < rows_most }
    ensures { NotesTaken v at before result }
{
    if v.read_capture_offset != NONE && v.capture_offset == NONE {
        before.or(Some(SecondRefusal::NoCapture(narrow(at))))
    } else {
        before
    }
}

// The capture at the place is used, and the entry of the binder at b.
fn use_taken(at: usize, b: usize, place: usize, work: &mut [u32]) -> Capture
    requires { (at < rows_most) × (b < rows_most) × Takeable place work.old }
    ensures { UsesTaken at b place work.old result work.new }
{
    let t = work::captures::load_capture(work, place);
    work::captures::use_capture(work, place);
    let e = work::entries::load_entry(work, b).used_by(at).capture();
    work::entries::store_entry(work, b, e);
    t
}

fn read_taken(
    all: &[u32],
    at: usize,
    b: usize,
    place: usize,
    row: usize,
    p: Pass,
    facts: &mut [u32],
    captured: &[u32],
    work: &mut [u32],
) -> Option<SecondRefusal>
    requires { TakenBound all.now at b place row p facts.old captured.now work.old }
    ensures { ReadsTaken all.now at b place row p
        facts.old captured.now work.old result facts.new work.new }
{
    let v = semantic::list_entries::load_info(captured, row);
    let t = use_taken(at, b, place, work);
    semantic::amend::with_usage_count(facts, wide(t.binder), t.uses + 1);
    let fact = taken_fact(p.depth(), t, v, span_at(all, at));
    semantic::rows::store(facts, at, fact);
    note_taken(v, at, p.second)
}

// The identifier at the record is read. Answers what the pass then has as the first refusal of a second run; nothing else of it changes
// (docs/SPEED.md, 43).
pub fn read(
    classes: &[u8],
    all: &[u32],
    at: usize,
    p: Pass,
    facts: &mut [u32],
    captured: &[u32],
    work: &mut [u32],
) -> Option<SecondRefusal>
    requires { Readable (length classes.now) all.now at p facts.old captured.now work.old }
    ensures { Does all.now at p
        facts.old captured.now work.old (read classes.now) (with_second result p) facts.new work.new }
{
    let name = tree::record::name(all, at);
    let prelude = is_class(classes, name, PRELUDE);
    let depth = p.depth();
    let second = p.second;
    let rule = rule_of(p, work, name);
    match rule {
        Rule::NoEntry => {
            semantic::amend::use_or_store(facts, at, free_fact(prelude, depth, span_at(all, at)));
            second
        }
        Rule::DepthOne(b) => {
            read_global(all, at, prelude, b, facts, work);
            second
        }
        Rule::CurrentLayer(b) => {
            read_local(all, at, depth, b, facts, work);
            second
        }
        Rule::TakenCapture(b, place, row) => read_taken(
            all, at, b, place, row, p, facts, captured, work,
        ),
        Rule::HomeSlot(b) => {
            read_home(all, at, depth, b, facts, work);
            second
        }
    }
}

// set!: the newest entry of the name is used once more and mutated, and its binder's fact tells.
pub fn mutate(name: u32, p: Pass, facts: &mut [u32], work: &mut [u32])
    requires { Settable p facts.old work.old }
    ensures { Mutates name p facts.old work.old facts.new work.new }
{
    let Some(b) = work::scope::newest(p, work, name) else {
        return;
    };
    let e = work::entries::load_entry(work, b).used().mutate();
    work::entries::store_entry(work, b, e);
    semantic::amend::mark_set(facts, b);
}
