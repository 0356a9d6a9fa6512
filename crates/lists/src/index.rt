// What a name gives to the list of a lambda that ends: by search, or, where many names are live, by an index of them (docs/SPEED.md, 31).
ghost use Rattle.std.specs.Prelude.{◌≡◌, [], ◌<◌, length};
ghost use Rattle.pass.specs.Run.{rows_most};
ghost use Rattle.work.specs.Coded.{record_in};
ghost use Rattle.work.specs.Works.{work_long};
ghost use Rattle.work.specs.Leaves.{Tells};
ghost use Rattle.work.specs.Scope.{KnownHere};
ghost use Rattle.walk.specs.Contract.{SomeNames};
ghost use Rattle.lists.specs.Index.{captured_newest, Indexed, SomeHere, Offers, TellsCaptured, PutsRow, Empty, PutsRows, ClearsName, ClearsNames};

use table::wide;
use walk::uses::{Names, holds};
use work::Pass;
use work::entries::load_entry;
use work::scope::{live_at, newest};

// How many names an array by name has: all that a script may have. What it would tell of a name past its end is looked for.
pub const NAMES: usize = 1024;

// For so few names a search is quicker than an array.
pub const FEW: usize = 128;

// The binder, where it is captured.
fn where_captured(work: &[u32], b: usize) -> Option<usize>
    requires { (length work.now ≡ work_long) × (b < rows_most) }
    ensures { TellsCaptured work.now b result }
{
    if load_entry(work, b).captured {
        Some(b)
    } else {
        None
    }
}

// The newest binder of the name, where it is captured.
fn captured_binder(p: Pass, work: &[u32], name: u32) -> Option<usize>
    requires { SomeHere p work.now }
    ensures { Tells p work.now (λ s. record_in (captured_newest s.scope name)) result }
{
    where_captured(work, newest(p, work, name)?)
}

// What a name above the bottom layer gives to the list of a lambda with these parameters, by search. Few names are captured, so that is asked first.
pub fn search(all: &[u32], names: Names, p: Pass, work: &[u32], name: u32) -> Option<usize>
    requires { SomeNames all.now names × KnownHere all.now p work.now }
    ensures { Offers all.now names p work.now [] name result }
{
    let b = captured_binder(p, work, name)?;
    if holds(all, names, name) {
        return None;
    }
    Some(b)
}

// What the name gives, by the index where that has the name.
pub fn offered(
    index: &[Option<u32>],
    all: &[u32],
    names: Names,
    p: Pass,
    work: &[u32],
    name: u32,
) -> Option<usize>
    requires { SomeNames all.now names × KnownHere all.now p work.now }
    ensures { Offers all.now names p work.now index.now name result }
{
    match index.get(wide(name)) {
        Some(Some(b)) => Some(wide(*b)),
        Some(None) => None,
        None => search(all, names, p, work, name),
    }
}

// The live name in row i is the newest of its name so far.
fn put_row(p: Pass, work: &[u32], i: usize, index: &mut [Option<u32>])
    requires { SomeHere p work.now × (i < p.scope.length) }
    ensures { PutsRow p work.now i index.old index.new }
{
    let r = live_at(p, work, i);
    let x = wide(r.name);
    if x < index.len() {
        index[x] = load_entry(work, wide(r.value)).captured.then_some(r.value);
    }
}

fn put_rows(p: Pass, work: &[u32], index: &mut [Option<u32>])
    requires { SomeHere p work.now × Empty index.old }
    ensures { PutsRows p work.now index.new }
{
    for i in 0..p.scope.length {
        put_row(p, work, i, index);
    }
}

// A name of the index gives nothing.
fn clear_name(index: &mut [Option<u32>], x: usize)
    ensures { ClearsName index.old x index.new }
{
    if x < index.len() {
        index[x] = None;
    }
}

fn clear_names(all: &[u32], names: Names, index: &mut [Option<u32>])
    requires { SomeNames all.now names }
    ensures { ClearsNames all.now names index.old index.new }
{
    for i in 0..names.count {
        clear_name(index, wide(tree::record::name(all, names.first + i)));
    }
}

// The index of a lambda with these parameters.
pub fn index_names(all: &[u32], names: Names, p: Pass, work: &[u32], index: &mut [Option<u32>])
    requires { SomeNames all.now names × KnownHere all.now p work.now × Empty index.old }
    ensures { Indexed all.now names p work.now index.new }
{
    put_rows(p, work, index);
    clear_names(all, names, index);
}
