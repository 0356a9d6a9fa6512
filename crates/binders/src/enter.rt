// Names of a lambda or a let, as they enter.
ghost use Rattle.std.specs.Prelude.{◌≡◌, cond, ◌<◌, length};
ghost use Rattle.semantic.specs.declared.IdentifierStatus.TheVariants.{HeapAllocated};
ghost use Rattle.pass.specs.Run.{list_entries_length};
ghost use Rattle.work.specs.Coded.{coded};
ghost use Rattle.names.specs.Contract.{Room, with_name, Defined};
ghost use Rattle.lists.specs.Contract.{Inside};
ghost use Rattle.binders.specs.Enter.{TellsHeap, name_entry, NotesHeap, EntersName, SlotsFit, NamesFit, EntersNames, with_names};

use names::define::{EnteredName, name_in, with_name};
use semantic::{IdentifierStatus, ListAt, SemanticInformation};
use table::wide;
use walk::uses::Names;
use work::entries::Entry;
use work::{Pass, SecondRefusal, narrow};

pub fn no_list() -> ListAt
    ensures { result ≡ record { first = 0; length = 0 } }
{
    ListAt {
        first: 0,
        length: 0,
    }
}

// What names that enter have in common: their kind, the slot of the first, how many heap entries the lambda around has, if there is one, and the
// list of the run before.
#[derive(Clone, Copy)]
pub struct Entering {
    pub kind: IdentifierStatus,
    pub base: u32,
    pub heaps: Option<u32>,
    pub before: ListAt,
}

// Whether the entry at place j of a list is captured and mutated.
fn is_heap(arguments: &[u32], before: ListAt, j: usize) -> bool
    requires { Inside before × (length arguments.now ≡ list_entries_length) }
    ensures { TellsHeap arguments.now before j result }
{
    if wide(before.length) <= j {
        return false;
    }
    semantic::list_entries::is_heap(arguments, wide(before.first) + j)
}

// The entry of the name at place j, with h heap entries before it: on the heap, if it was captured and mutated on the run before, or with a slot.
fn name_entry(heap: bool, g: Entering, j: u32, h: u32, depth: u32) -> Entry
    requires { SlotsFit g j h }
    ensures { result ≡ coded (name_entry heap g.base g.heaps j h depth) }
{
    if heap {
        Entry::on_heap(j, h + g.heaps.unwrap_or(0), depth)
    } else {
        Entry::local(g.base + j, depth)
    }
}

fn name_kind(heap: bool, kind: IdentifierStatus) -> IdentifierStatus
    ensures { result ≡ cond heap HeapAllocated kind }
{
    if heap {
        IdentifierStatus::HeapAllocated
    } else {
        kind
    }
}

// Refusal 11: on the heap, with no lambda around.
fn note_heap(heap: bool, heaps: Option<u32>, at: usize, second: &mut Option<SecondRefusal>)
    requires { at < 4294967296 }
    ensures { NotesHeap heap heaps at second.old second.new }
{
    if heap && heaps.is_none() {
        *second = second.or(Some(SecondRefusal::NoLambda(narrow(at))));
    }
}

// The name at place j, with h heap entries before it.
fn enter_name(
    all: &[u32],
    at: usize,
    heap: bool,
    g: Entering,
    j: u32,
    h: u32,
    p: Pass,
    facts: &mut [u32],
    work: &mut [u32],
) -> EnteredName
    requires { Room p × Defined all.now at p facts.old work.old × SlotsFit g j h }
    ensures { EntersName heap g all.now at j h p facts.old work.old (with_name result p) facts.new work.new }
{
    let depth = p.depth();
    let e = name_entry(heap, g, j, h, depth);
    let fact = SemanticInformation::new(
        name_kind(heap, g.kind),
        depth,
        names::facts::span_at(all, at),
    );
    names::define::enter_name(all, at, e, fact, p, facts, work)
}

// What names that entered change of the pass: what the last one does, and the first refusal of a second run.
#[derive(Clone, Copy)]
pub struct EnteredNames {
    pub name: EnteredName,
    pub second: Option<SecondRefusal>,
}

pub fn with_names(p: Pass, e: EnteredNames) -> Pass
    ensures { result ≡ with_names e p }
{
    Pass {
        second: e.second,
        ..with_name(p, e.name)
    }
}

// The names enter one after another. Answers what they changed, not the pass (docs/SPEED.md, 43 and 48).
pub fn enter_names(
    all: &[u32],
    names: Names,
    g: Entering,
    p: Pass,
    facts: &mut [u32],
    arguments: &[u32],
    work: &mut [u32],
) -> EnteredNames
    requires { NamesFit all.now names g p facts.old arguments.now work.old }
    ensures { EntersNames all.now names g p facts.old arguments.now work.old (with_names result p) facts.new work.new }
{
    let mut q = p;
    let mut h = 0;
    for j in 0..names.count {
        let at = names.first + j;
        let heap = is_heap(arguments, g.before, j);
        note_heap(heap, g.heaps, at, &mut q.second);
        let e = enter_name(all, at, heap, g, narrow(j), h, q, facts, work);
        q.scope.length = e.length;
        q.nine = e.nine;
        if heap {
            h += 1;
        }
    }
    EnteredNames {
        name: name_in(q),
        second: q.second,
    }
}
