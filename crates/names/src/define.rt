// A name enters the scope, and a define's fact is made.
ghost use Rattle.std.specs.Prelude.{◌≡◌, ◌<◌, length};
ghost use Rattle.tree.specs.Record.{records};
ghost use Rattle.work.specs.Scope.{KnownHere};
ghost use Rattle.names.specs.Contract.{Room, with_name, name_in, Defined, EntersName, DefinesBy, EntersValue, Settable};
ghost use Rattle.names.specs.Steps.{DefineFact, Shadows};

use crate::facts::{mark_if, span_at, status_at};
use scope_map::ScopeMap;
use semantic::{IdentifierStatus, SemanticInformation};
use walk::body::Body;
use work::Pass;
use work::entries::Entry;
use work::scope::is_live_row;

// What a name that enters changes of the pass: how many names live, and refusal 9.
#[derive(Clone, Copy)]
pub struct EnteredName {
    pub length: usize,
    pub nine: Option<u32>,
}

pub fn name_in(q: Pass) -> EnteredName
    ensures { result ≡ name_in q }
{
    EnteredName {
        length: q.scope.length,
        nine: q.nine,
    }
}

pub fn with_name(p: Pass, e: EnteredName) -> Pass
    ensures { result ≡ with_name e p }
{
    Pass {
        scope: ScopeMap {
            length: e.length,
            ..p.scope
        },
        nine: e.nine,
        ..p
    }
}

// The name at the record enters the newest layer, with this entry and this fact: refusal 9 where its row was there before, above the bottom
// layer, else one row more. Answers what changes: a whole pass would be stored in narrow words and copied in wide ones by the caller, and such
// a copy waits for the stores (docs/SPEED.md, 43 and 49).
pub fn enter_name(
    all: &[u32],
    at: usize,
    e: Entry,
    fact: SemanticInformation,
    p: Pass,
    facts: &mut [u32],
    work: &mut [u32],
) -> EnteredName
    requires { Room p × Defined all.now at p facts.old work.old × (e.uses < 536870912) }
    ensures { EntersName all.now at e fact p facts.old work.old (with_name result p) facts.new work.new }
{
    let name = tree::record::name(all, at);
    let place = work::scope::define_name(p, work, name, at);
    work::entries::store_entry(work, at, e);
    semantic::rows::store(facts, at, fact);
    let live = is_live_row(p, place);
    let q = work::scope::with_row(p, place);
    name_in(work::notes::note_live(q, live, at))
}

fn define_fact(
    all: &[u32],
    at: usize,
    kind: IdentifierStatus,
    alias: u32,
    b: Body,
    p: Pass,
    work: &[u32],
) -> SemanticInformation
    requires { KnownHere all.now p work.now × (at < length (records all.now)) }
    ensures { DefineFact b kind alias all.now at p work.now result }
{
    let depth = p.depth();
    let hidden = work::scope::newest_id(all, p, work, tree::record::name(all, at));
    let i = SemanticInformation::new(status_at(depth, kind), depth, span_at(all, at));
    let j = mark_if(i, b.required, SemanticInformation::mark_required);
    mark_if(j, b.builtin, SemanticInformation::mark_builtin)
        .shadows(hidden)
        .aliases_to(alias)
}

// A define enters, its name at this record.
pub fn enter_define(
    all: &[u32],
    at: usize,
    kind: IdentifierStatus,
    alias: u32,
    b: Body,
    p: Pass,
    facts: &mut [u32],
    work: &mut [u32],
) -> EnteredName
    requires { Room p × Defined all.now at p facts.old work.old }
    ensures { DefinesBy b kind alias all.now at p facts.old work.old (with_name result p) facts.new work.new }
{
    let fact = define_fact(all, at, kind, alias, b, p, work);
    enter_name(all, at, Entry::top_level(), fact, p, facts, work)
}

// The fact of the name's newest entry is marked as shadowed, if it is a builtin's.
fn shadow(name: u32, p: Pass, facts: &mut [u32], work: &[u32])
    requires { Settable p facts.old work.now }
    ensures { Shadows name p facts.old work.now facts.new }
{
    if let Some(hidden) = work::scope::newest(p, work, name) {
        semantic::amend::shadow_if_builtin(facts, hidden);
    }
}

// A top-level value define marks the builtin that it hides.
pub fn enter_top_level_value(
    all: &[u32],
    at: usize,
    b: Body,
    p: Pass,
    facts: &mut [u32],
    work: &mut [u32],
) -> EnteredName
    requires { Room p × Defined all.now at p facts.old work.old }
    ensures { EntersValue b all.now at p facts.old work.old (with_name result p) facts.new work.new }
{
    shadow(tree::record::name(all, at), p, facts, work);
    enter_define(
        all,
        at,
        IdentifierStatus::Global,
        b.alias,
        b,
        p,
        facts,
        work,
    )
}
