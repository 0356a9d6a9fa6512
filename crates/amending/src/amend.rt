// The list that a second run keeps at a lambda's end. For a long list, or with many live names, three arrays by name are made: what a name
// gives (`index`), how often it stands in the list made anew (`counts`), and whether an entry of it is kept already (`seen`). What they tell
// is looked for where they do not have the name; for any other list they have none (docs/SPEED.md, 31).
ghost use Rattle.std.specs.Prelude.{◌≡◌, ◌&&◌, ◌||◌, not, [], ◌≤◌, ◌<◌, length, eqb};
ghost use Rattle.scope_map.specs.ScopeMap.{get};
ghost use Rattle.pass.specs.Lists.{enclosing_of};
ghost use Rattle.pass.specs.Run.{list_entries_most, list_entries_length};
ghost use Rattle.work.specs.Leaves.{Tells};
ghost use Rattle.work.specs.Works.{work_long};
ghost use Rattle.walk.specs.Marks.{Unmarked};
ghost use Rattle.amending.specs.Contract.{SomeLambda, Ended, AmendsList};
ghost use Rattle.lists.specs.Contract.{Held, Inside};
ghost use Rattle.lists.specs.Rewrites.{Rewrites};
ghost use Rattle.lists.specs.Index.{SomeHere};
ghost use Rattle.amending.specs.Kept.{StandsBefore, SomeBinder, AmendsInfo, IndexHeld, KeepsListEntry, KeepHeld, KeepsRow, AllRight, cleared};

use crate::counts::{count_names, count_used};
use lists::captured::above_bottom;
use lists::index::{FEW, NAMES, index_names, offered};
use lists::rows::{ListEntry, load_list_entry, store_list_entry};
use semantic::fields::LIST_ENTRY;
use semantic::{ListAt, ScopeInfo};
use table::wide;
use walk::uses::{Names, holds_lambda, mark};
use work::Pass;
use work::captures::{load_capture, newest_capture, set_binder};
use work::entries::load_entry;

// Up to so many rows above the bottom layer, each taken once for each entry, a search is quicker than counting all names.
const SEARCHED: usize = 16384;

// A lambda: its parameters, and the records of its body.
#[derive(Clone, Copy)]
pub struct Lambda {
    pub names: Names,
    pub first: usize,
    pub end: usize,
}

// One whose list is amended, and whether a lambda stands among its records.
#[derive(Clone, Copy)]
pub struct Ending {
    pub lambda: Lambda,
    pub holds: bool,
}

// The records are gone through, so this is asked only where there is a list to amend (docs/SPEED.md, 51).
fn ending_of(all: &[u32], l: Lambda) -> Ending
    requires { SomeLambda all.now l }
    ensures { (result.lambda ≡ l) × Ended all.now result }
{
    Ending {
        lambda: l,
        holds: holds_lambda(all, l.first, l.end),
    }
}

// Whether the name stands in the rows from `first` up to `end`, by search.
fn search_rows(captured: &[u32], first: usize, end: usize, name: u32) -> bool
    requires { (length captured.now ≡ list_entries_length) × (first ≤ end) × (end ≤ list_entries_most) }
    ensures { StandsBefore captured.now first end [] name result }
{
    for i in first..end {
        if semantic::list_entries::name_at(captured, i) == name {
            return true;
        }
    }
    false
}

// The same, by the marks where they have the name.
fn stands_before(seen: &[u8], captured: &[u32], first: usize, end: usize, name: u32) -> bool
    requires { (length captured.now ≡ list_entries_length) × (first ≤ end) × (end ≤ list_entries_most) }
    ensures { StandsBefore captured.now first end seen.now name result }
{
    match seen.get(wide(name)) {
        Some(mark) => *mark == 1,
        None => search_rows(captured, first, end, name),
    }
}

// Whether the newest capture of the name comes from the enclosing lambda.
fn enclosing_of(p: Pass, work: &[u32], name: u32) -> bool
    requires { SomeHere p work.now }
    ensures { Tells p work.now (λ s. enclosing_of (get s.captures name)) result }
{
    match newest_capture(p, work, name) {
        Some(found) => load_capture(work, found.row).enclosing,
        None => false,
    }
}

// The same, for a name that stands n times in the list made anew: once.
fn enclosing_in(p: Pass, work: &[u32], name: u32, n: usize) -> bool
    requires { SomeHere p work.now }
    ensures { Tells p work.now (λ s. eqb n 1 && enclosing_of (get s.captures name)) result }
{
    n == 1 && enclosing_of(p, work, name)
}

// The first kept entry of a name takes the heap offset of the entry that the name gives, and where it comes from.
fn amended(
    found: Option<usize>,
    p: Pass,
    work: &[u32],
    name: u32,
    n: usize,
    v: ScopeInfo,
) -> ScopeInfo
    requires { SomeHere p work.now × SomeBinder found }
    ensures { AmendsInfo found p work.now name n v result }
{
    let Some(b) = found else {
        return v;
    };
    ScopeInfo {
        heap_offset: load_entry(work, b).heap,
        captured_from_enclosing: enclosing_in(p, work, name, n),
        ..v
    }
}

// The entry x, of a name that stands n times in the list made anew, as it is kept. `seen`: one of its name is kept before it.
fn kept(
    index: &[Option<u32>],
    all: &[u32],
    names: Names,
    p: Pass,
    work: &[u32],
    n: usize,
    seen: bool,
    x: ListEntry,
) -> ListEntry
    requires { IndexHeld all.now names p work.now index.now }
    ensures keeps_list_entry { KeepsListEntry all.now names p work.now index.now n seen x result }
    ensures place { result.binder ≡ x.binder }
{
    if n == 0 || seen {
        return x;
    }
    let found = offered(index, all, names, p, work, x.name);
    ListEntry {
        info: amended(found, p, work, x.name, n, x.info),
        ..x
    }
}

// Whether an entry is kept whose name stands n times in the list made anew.
fn keeps(holds: bool, n: usize) -> bool
    ensures { result ≡ (holds || not (eqb n 0)) }
{
    holds || n != 0
}

// Row r of the list goes to row `to`, if it is kept. Answers whether it is.
fn keep_row(
    index: &[Option<u32>],
    counts: &[u32],
    seen: &mut [u8],
    all: &[u32],
    d: Ending,
    p: Pass,
    first: usize,
    to: usize,
    r: usize,
    captured: &mut [u32],
    work: &mut [u32],
) -> bool
    requires { KeepHeld all.now d p index.now first to r captured.old work.old }
    ensures { KeepsRow all.now d p index.now counts.now seen.old first to r captured.old work.old
        result seen.new captured.new work.new }
{
    let x = load_list_entry(captured, work, r);
    let n = count_used(counts, all, d, p, work, x.name);
    if !keeps(d.holds, n) {
        return false;
    }
    let before = stands_before(seen, captured, first, to, x.name);
    let y = kept(index, all, d.lambda.names, p, work, n, before, x);
    store_list_entry(captured, work, to, y);
    mark(seen, wide(x.name));
    true
}

// Zeros in the rows from `first` up to `end`.
fn clear_list_entries(captured: &mut [u32], work: &mut [u32], first: usize, end: usize)
    requires { (length captured.old ≡ list_entries_length) × (length work.old ≡ work_long) × (first ≤ end) × (end ≤ list_entries_most) }
    ensures { Rewrites captured.old work.old (cleared first end) captured.new work.new }
{
    table::clear(&mut captured[LIST_ENTRY * first..LIST_ENTRY * end]);
    for r in first..end {
        set_binder(work, r, 0);
    }
}

// The list that is kept, in its place; what it gives up is zero. Answers its length.
fn amend_rows(
    index: &[Option<u32>],
    counts: &[u32],
    seen: &mut [u8],
    all: &[u32],
    d: Ending,
    e: ListAt,
    p: Pass,
    captured: &mut [u32],
    work: &mut [u32],
) -> usize
    requires { Inside e × Ended all.now d × Held all.now p captured.old work.old
        × AllRight all.now d p work.old index.now counts.now × Unmarked seen.old }
    ensures { AmendsList all.now d.lambda e p captured.old work.old result captured.new work.new }
{
    let first = wide(e.first);
    let n = wide(e.length);
    let mut to = first;
    for k in 0..n {
        if keep_row(
            index,
            counts,
            seen,
            all,
            d,
            p,
            first,
            to,
            first + k,
            captured,
            work,
        ) {
            to += 1;
        }
    }
    clear_list_entries(captured, work, to, first + n);
    to - first
}

// A long list, by an index and counts of the live names.
fn amend_long(
    all: &[u32],
    d: Ending,
    e: ListAt,
    p: Pass,
    captured: &mut [u32],
    work: &mut [u32],
) -> usize
    requires { Inside e × Ended all.now d × Held all.now p captured.old work.old }
    ensures { AmendsList all.now d.lambda e p captured.old work.old result captured.new work.new }
{
    let mut index = [None; NAMES];
    index_names(all, d.lambda.names, p, work, &mut index);
    let mut counts = [0; NAMES];
    count_names(&index, all, d, p, work, &mut counts);
    let mut seen = [0; NAMES];
    amend_rows(&index, &counts, &mut seen, all, d, e, p, captured, work)
}

// A short list with few live names is amended by search. The names of the bottom layer are not looked at, and are counted only where all live
// names would be too many. The arrays of `amend_long` are not to lie in the frame of the usual case: it is called in two places, so that it is
// compiled as a function of its own. What is called is handed copies: what is handed by address is kept in memory from the start
// (docs/SPEED.md, 46).
pub fn amend_list(
    all: &[u32],
    l: Lambda,
    e: ListAt,
    p: Pass,
    captured: &mut [u32],
    work: &mut [u32],
) -> usize
    requires { Inside e × SomeLambda all.now l × Held all.now p captured.old work.old }
    ensures { AmendsList all.now l e p captured.old work.old result captured.new work.new }
{
    let n = wide(e.length);
    if n == 0 {
        return 0;
    }
    let d = ending_of(all, l);
    if FEW < n {
        let ending = d;
        let o = p;
        return amend_long(&*all, ending, e, o, captured, work);
    }
    let live = p.scope.length;
    if SEARCHED < n * live && SEARCHED < n * (live - above_bottom(p, work)) {
        let ending = d;
        let o = p;
        return amend_long(&*all, ending, e, o, captured, work);
    }
    let ending = d;
    let o = p;
    amend_rows(&[], &[], &mut [], &*all, ending, e, o, captured, work)
}
