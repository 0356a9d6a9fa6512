// How often a name stands in the list made anew, where a second run leaves a lambda: by search, or, where the list kept is long
// or many names are live, counted once for all names (docs/SPEED.md, 31).
ghost use Rattle.std.specs.Prelude.{[], ◌<◌};
ghost use Rattle.work.specs.Scope.{KnownHere};
ghost use Rattle.walk.specs.Contract.{SomeNames};
ghost use Rattle.walk.specs.Marks.{Unmarked};
ghost use Rattle.amending.specs.Contract.{Ended};
ghost use Rattle.lists.specs.Index.{Zeros};
ghost use Rattle.amending.specs.Counts.{GivesName, CountsNow, MarksBody, TellsUsed, CountsUsed, AtMost, CountsRow, CountsRows, CountsNames};

use crate::amend::Ending;
use lists::captured::captured_at;
use lists::index::NAMES;
use table::wide;
use walk::uses::{Names, mark_uses, uses_name};
use work::Pass;
use work::scope::live_at;

// Whether live row i is of the name and gives an entry to the list.
fn gives(all: &[u32], names: Names, p: Pass, work: &[u32], i: usize, name: u32) -> bool
    requires { SomeNames all.now names × KnownHere all.now p work.now × (i < p.scope.length) }
    ensures { GivesName all.now names p work.now i name result }
{
    live_at(p, work, i).name == name && captured_at(&[], all, names, p, work, i).is_some()
}

// How often the name stands in the list made anew. The names of the bottom layer come first and give nothing; the count starts at the newest
// row.
fn count_now(all: &[u32], names: Names, p: Pass, work: &[u32], name: u32) -> usize
    requires { SomeNames all.now names × KnownHere all.now p work.now }
    ensures { CountsNow all.now names p work.now name result }
{
    let mut n = 0;
    for i in (0..p.scope.length).rev() {
        if live_at(p, work, i).layer <= 1 {
            return n;
        }
        if gives(all, names, p, work, i, name) {
            n += 1;
        }
    }
    n
}

// Marks the names that the body uses, unless it holds a lambda.
fn mark_body(all: &[u32], d: Ending, used: &mut [u8])
    requires { Ended all.now d × Unmarked used.old }
    ensures { MarksBody all.now d used.new }
{
    if !d.holds {
        mark_uses(all, d.lambda.first, d.lambda.end, used);
    }
}

// Whether the body holds a lambda or uses the name, by its marks where they have the name.
fn is_used(used: &[u8], all: &[u32], d: Ending, name: u32) -> bool
    requires { Ended all.now d }
    ensures { TellsUsed all.now d used.now name result }
{
    if d.holds {
        return true;
    }
    match used.get(wide(name)) {
        Some(mark) => *mark == 1,
        None => uses_name(all, d.lambda.first, d.lambda.end, name),
    }
}

// How often the name stands in the list made anew of the names used, by search.
fn search_count(all: &[u32], d: Ending, p: Pass, work: &[u32], name: u32) -> usize
    requires { Ended all.now d × KnownHere all.now p work.now }
    ensures { CountsUsed all.now d p work.now [] name result }
{
    if is_used(&[], all, d, name) {
        count_now(all, d.lambda.names, p, work, name)
    } else {
        0
    }
}

// The same, by the counts where they have the name.
pub fn count_used(counts: &[u32], all: &[u32], d: Ending, p: Pass, work: &[u32], name: u32) -> usize
    requires { Ended all.now d × KnownHere all.now p work.now }
    ensures { CountsUsed all.now d p work.now counts.now name result }
{
    match counts.get(wide(name)) {
        Some(count) => wide(*count),
        None => search_count(all, d, p, work, name),
    }
}

// What live row i gives is counted, if the body uses its name.
fn count_row(
    index: &[Option<u32>],
    used: &[u8],
    all: &[u32],
    d: Ending,
    p: Pass,
    work: &[u32],
    i: usize,
    counts: &mut [u32],
)
    requires { Ended all.now d × KnownHere all.now p work.now × (i < p.scope.length) × AtMost i counts.old }
    ensures { CountsRow all.now d p work.now index.now used.now i counts.old counts.new }
{
    let name = live_at(p, work, i).name;
    let x = wide(name);
    if x < counts.len()
        && is_used(used, all, d, name)
        && captured_at(index, all, d.lambda.names, p, work, i).is_some()
    {
        counts[x] += 1;
    }
}

fn count_rows(
    index: &[Option<u32>],
    used: &[u8],
    all: &[u32],
    d: Ending,
    p: Pass,
    work: &[u32],
    counts: &mut [u32],
)
    requires { Ended all.now d × KnownHere all.now p work.now × Zeros counts.old }
    ensures { CountsRows all.now d p work.now index.now used.now counts.new }
{
    for i in 0..p.scope.length {
        count_row(index, used, all, d, p, work, i, counts);
    }
}

// The counts of all names that `counts` has.
pub fn count_names(
    index: &[Option<u32>],
    all: &[u32],
    d: Ending,
    p: Pass,
    work: &[u32],
    counts: &mut [u32],
)
    requires { Ended all.now d × KnownHere all.now p work.now × Zeros counts.old }
    ensures { CountsNames all.now d p work.now index.now counts.new }
{
    let mut used = [0; NAMES];
    mark_body(all, d, &mut used);
    count_rows(index, &used, all, d, p, work, counts);
}
