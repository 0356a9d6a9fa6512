// The offsets that a second run gives on entering a lambda.
ghost use Rattle.std.specs.Prelude.{◌≡◌, ◌+◌, ◌≤◌, ◌<◌, length};
ghost use Rattle.pass.specs.Run.{list_entries_most, list_entries_length};
ghost use Rattle.work.specs.Works.{work_long};
ghost use Rattle.lists.specs.Contract.{Inside};
ghost use Rattle.amending.specs.Contract.{CapturesRoom, SomeHeld, Numbers, CountsHeap};
ghost use Rattle.amending.specs.Numbered.{offsets_from, taken_by, TellsNear, PutsOffsets, TakeHeld, TakesRow, RowHeld, NumbersRow, RowsHeld, NumbersRows, TellsMutated};

use lists::rows::{ListEntry, load_list_entry};
use semantic::{ListAt, ScopeInfo};
use table::wide;
use work::captures::{Capture, define_capture, newest_capture};
use work::{Pass, narrow};

// The newest capture of the name, if it lies in the newest layer or the next one down.
pub fn near(p: Pass, captured: &[u32], work: &[u32], name: u32) -> Option<ScopeInfo>
    requires { SomeHeld p captured.now work.now }
    ensures { TellsNear p captured.now work.now name result }
{
    let found = newest_capture(p, work, name)?;
    if 1 < p.captures.depth.saturating_sub(found.layer) {
        return None;
    }
    Some(semantic::list_entries::load_info(captured, wide(found.value)))
}

// The offsets that are read of the newest capture of an entry's name, where that is near, else of the entry's own number and slot.
#[derive(Clone, Copy)]
pub struct Offsets {
    pub capture: u32,
    pub heap: u32,
    pub parent: u32,
}

fn offsets_from(o: Option<ScopeInfo>, i: u32, slot: u32) -> Offsets
    ensures { result ≡ offsets_from o i slot }
{
    match o {
        Some(w) => Offsets {
            capture: w.read_capture_offset,
            heap: w.read_heap_offset,
            parent: w.local_heap_offset,
        },
        None => Offsets {
            capture: i,
            heap: slot,
            parent: slot,
        },
    }
}

// The entry in row r takes its offsets. `heap`, here and below: which entries are meant, those that are mutated or the others; the steps are the same.
fn put_offsets(captured: &mut [u32], heap: bool, r: usize, i: u32, o: Option<ScopeInfo>, slot: u32)
    requires { (length captured.old ≡ list_entries_length) × (r < list_entries_most) }
    ensures { PutsOffsets captured.old heap r i o slot captured.new }
{
    let f = offsets_from(o, i, slot);
    if heap {
        semantic::list_entries::with_heap_offsets(captured, r, f.heap, i, f.parent, i);
    } else {
        semantic::list_entries::with_capture_offsets(captured, r, f.capture, i);
    }
}

fn capture_of(x: ListEntry, enclosing: bool) -> Capture
    requires { x.binder < 4294967296 }
    ensures { result ≡ taken_by x enclosing }
{
    Capture {
        binder: narrow(x.binder),
        id: x.info.id,
        uses: x.info.usage_count,
        enclosing,
    }
}

// The entry x in row r gets the number i, and is its name's newest capture.
fn take_row(
    heap: bool,
    r: usize,
    i: u32,
    x: ListEntry,
    p: Pass,
    captured: &mut [u32],
    work: &mut [u32],
) -> Pass
    requires { TakeHeld r x p captured.old work.old }
    ensures { TakesRow heap r i x p captured.old work.old result captured.new work.new }
{
    let o = near(p, captured, work, x.name);
    put_offsets(captured, heap, r, i, o, x.info.stack_offset);
    define_capture(p, work, x.name, r, capture_of(x, o.is_some()))
}

// The entry in row r gets the number i, if it is mutated or not, as asked. Answers the pass after it, and the next number.
fn number_row(
    heap: bool,
    r: usize,
    i: u32,
    p: Pass,
    captured: &mut [u32],
    work: &mut [u32],
) -> (Pass, u32)
    requires { RowHeld heap r p captured.old work.old × (i < 4294967295) }
    ensures numbers_row { NumbersRow heap r i p captured.old work.old result captured.new work.new }
    ensures few { result.1 ≤ i + 1 }
{
    let x = load_list_entry(captured, work, r);
    if x.info.mutated == heap {
        (take_row(heap, r, i, x, p, captured, work), i + 1)
    } else {
        (p, i)
    }
}

// The entries that are mutated, or those that are not, are numbered.
fn number_rows(heap: bool, e: ListAt, p: Pass, captured: &mut [u32], work: &mut [u32]) -> Pass
    requires { Inside e × RowsHeld heap e.length e.first p captured.old work.old }
    ensures { NumbersRows heap e p captured.old work.old result captured.new work.new }
{
    let first = wide(e.first);
    let n = wide(e.length);
    let mut q = p;
    let mut i = 0;
    for k in 0..n {
        (q, i) = number_row(heap, first + k, i, q, captured, work);
    }
    q
}

// Whether an entry of the list is mutated.
fn has_mutated(e: ListAt, captured: &[u32], work: &[u32]) -> bool
    requires { Inside e × (length captured.now ≡ list_entries_length) × (length work.now ≡ work_long) }
    ensures { TellsMutated captured.now work.now e result }
{
    let first = wide(e.first);
    let n = wide(e.length);
    for k in 0..n {
        if load_list_entry(captured, work, first + k).info.mutated {
            return true;
        }
    }
    false
}

// `number_rows` is first handed a copy of the pass (docs/SPEED.md, 46), and is called for mutated entries only where there are any (51).
pub fn number_list(e: ListAt, p: Pass, captured: &mut [u32], work: &mut [u32]) -> Pass
    requires { Inside e × CapturesRoom p e × SomeHeld p captured.old work.old }
    ensures { Numbers e p captured.old work.old result captured.new work.new }
{
    if e.length == 0 {
        return p;
    }
    let o = p;
    let q = number_rows(false, e, o, captured, work);
    if !has_mutated(e, captured, work) {
        return q;
    }
    number_rows(true, e, q, captured, work)
}

// How many entries of a list are captured and mutated.
pub fn heap_count(e: ListAt, t: &[u32]) -> u32
    requires { Inside e × (length t.now ≡ list_entries_length) }
    ensures counts_heap { CountsHeap t.now e result }
    ensures few { result ≤ list_entries_most }
{
    let first = wide(e.first);
    let n = wide(e.length);
    let mut h = 0;
    for k in 0..n {
        if semantic::list_entries::is_heap(t, first + k) {
            h += 1;
        }
    }
    h
}
