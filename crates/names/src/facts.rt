// The facts of identifiers, by the rule that makes them.
ghost use Rattle.std.specs.Prelude.{cond, true, false, ◌≡◌, ◌<◌, length};
ghost use Rattle.tree.specs.Record.{records, nth};
ghost use Rattle.semantic.specs.Information.{mark_builtin};
ghost use Rattle.semantic.specs.declared.IdentifierStatus.TheVariants.{Captured, HeapAllocated};
ghost use Rattle.pass.specs.Read.{mark_if, status_at, has_number, capture_offsets};
ghost use Rattle.names.specs.Facts.{span_of, reading_of, FreeFact, GlobalFact, LocalFact, HomeFact, TakenFact};

use semantic::{IdentifierStatus, NONE, ScopeInfo, SemanticInformation, Span};
use work::captures::Capture;
use work::entries::Entry;

// The fact, marked in this way if it is so.
pub fn mark_if<F: FnOnce(SemanticInformation) -> SemanticInformation>(
    i: SemanticInformation,
    so: bool,
    mark: F,
) -> SemanticInformation
    requires { F.pre mark i }
    ensures marked { so ≡ true → F.post mark i result }
    ensures kept { so ≡ false → result ≡ i }
{
    if so { mark(i) } else { i }
}

pub fn status_at(depth: u32, kind: IdentifierStatus) -> IdentifierStatus
    ensures { result ≡ status_at depth kind }
{
    if depth == 1 {
        IdentifierStatus::Global
    } else {
        kind
    }
}

pub fn free_fact(prelude: bool, depth: u32, span: Span) -> SemanticInformation
    ensures { FreeFact prelude depth span result }
{
    if prelude {
        SemanticInformation::new(IdentifierStatus::Global, depth, span).mark_builtin()
    } else {
        SemanticInformation::new(IdentifierStatus::Free, depth, span)
    }
}

// A read of what has this id.
fn reading(kind: IdentifierStatus, depth: u32, id: u32, span: Span) -> SemanticInformation
    ensures { result ≡ reading_of kind depth id span }
{
    SemanticInformation::new(kind, depth, span)
        .with_usage_count(1)
        .refers_to(id)
}

pub fn global_fact(prelude: bool, id: u32, span: Span) -> SemanticInformation
    ensures { GlobalFact prelude id span result }
{
    mark_if(
        reading(IdentifierStatus::Global, 1, id, span),
        prelude,
        SemanticInformation::mark_builtin,
    )
}

pub fn local_fact(depth: u32, id: u32, e: Entry, span: Span) -> SemanticInformation
    ensures { LocalFact depth id e span result }
{
    if e.captured && e.mutated {
        reading(IdentifierStatus::HeapAllocated, depth, id, span)
            .with_offset(e.slot)
            .with_read_heap_offset(e.heap)
            .with_heap_offset(e.heap)
    } else {
        reading(IdentifierStatus::Local, depth, id, span).with_offset(e.slot)
    }
}

pub fn home_fact(depth: u32, id: u32, e: Entry, span: Span) -> SemanticInformation
    ensures { HomeFact depth id e span result }
{
    reading(IdentifierStatus::Captured, depth, id, span).with_offset(e.slot)
}

fn taken_kind(v: ScopeInfo) -> IdentifierStatus
    ensures { result ≡ cond v.mutated HeapAllocated Captured }
{
    if v.mutated {
        IdentifierStatus::HeapAllocated
    } else {
        IdentifierStatus::Captured
    }
}

fn with_capture_offsets(i: SemanticInformation, v: ScopeInfo) -> SemanticInformation
    ensures { result ≡ mark_if (has_number v.read_capture_offset) (capture_offsets v) i }
{
    if v.read_capture_offset == NONE {
        return i;
    }
    i.with_capture_index(v.capture_offset)
        .with_read_capture_offset(v.read_capture_offset)
}

pub fn taken_fact(depth: u32, t: Capture, v: ScopeInfo, span: Span) -> SemanticInformation
    ensures { TakenFact depth t v span result }
{
    let i = reading(taken_kind(v), depth, t.id, span).with_captured_from_enclosing(t.enclosing);
    with_capture_offsets(i, v)
        .with_read_heap_offset(v.read_heap_offset)
        .with_heap_offset(v.heap_offset)
}

pub fn span_at(all: &[u32], at: usize) -> Span
    requires { at < length (records all.now) }
    ensures { result ≡ span_of (nth all.now at) }
{
    Span {
        start: tree::record::from(all, at),
        end: tree::record::to(all, at),
    }
}
