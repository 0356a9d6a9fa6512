// The live names. The value of a name is its binder's record.
ghost use Rattle.std.specs.Prelude.{◌≡◌, List, ℕ, ◌+◌, ◌*◌, ◌≤◌, ◌<◌};
ghost use Rattle.scope_map.specs.Hints.{rows_length};
ghost use Rattle.pass.specs.State.{newest};
ghost use Rattle.pass.specs.Run.{rows_most};
ghost use Rattle.pass.specs.Lambda.{open_scope, close_scope};
ghost use Rattle.work.specs.Coded.{record_in};
ghost use Rattle.work.specs.Works.{Spacious};
ghost use Rattle.work.specs.Leaves.{Becomes, Tells};
ghost use Rattle.work.specs.Scope.{KnownHere, TellsId, is_live_row, in_row, Defines, removed, StartsLayer, TellsLive};

use crate::{ENTRIES, Pass, narrow};
use scope_map::Row;
use semantic::NONE;
use table::wide;

// The record of the name's newest binder.
pub fn newest(p: Pass, work: &[u32], name: u32) -> Option<usize>
    requires { Spacious p work.now }
    ensures { Tells p work.now (λ s. record_in (newest s name)) result }
{
    let found = p.scope.get(&work[..ENTRIES], name)?;
    Some(wide(found.value))
}

// The id of the name's newest binder, or NONE.
pub fn newest_id(all: &[u32], p: Pass, work: &[u32], name: u32) -> u32
    requires { KnownHere all.now p work.now }
    ensures { TellsId all.now p work.now name result }
{
    match newest(p, work, name) {
        Some(binder) => tree::record::id(all, binder),
        None => NONE,
    }
}

// The name enters the newest layer. Answers the row that it is in.
pub fn define_name(p: Pass, work: &mut [u32], name: u32, at: usize) -> usize
    requires { Spacious p work.old × (3 * p.scope.length + 3 ≤ rows_length) × (at < rows_most) }
    ensures { Defines p work.old name at result work.new }
{
    p.scope.define_at(&mut work[..ENTRIES], name, narrow(at))
}

// The row is there before a name enters in it, above the bottom layer.
pub fn is_live_row(p: Pass, place: usize) -> bool
    ensures { result ≡ is_live_row place p }
{
    1 < p.scope.depth && place < p.scope.length
}

// The pass after a name entered in the row.
pub fn with_row(p: Pass, place: usize) -> Pass
    requires { 3 * p.scope.length + 3 ≤ rows_length }
    ensures { result ≡ in_row place p }
{
    Pass {
        scope: p.scope.with_row(place),
        ..p
    }
}

pub fn remove_name(p: Pass, work: &mut [u32], name: u32) -> Pass
    requires { Spacious p work.old }
    ensures { Becomes p work.old (removed name) result work.new }
{
    Pass {
        scope: p.scope.remove(&mut work[..ENTRIES], name),
        ..p
    }
}

// This and the next are as `open_captures` and `close_captures` are: one function for both would have to say of which map.
pub fn open_scope(p: Pass) -> Pass
    requires { p.scope.depth < 4294967295 }
    ensures { (w : List ℕ) → Becomes p w open_scope result w }
{
    Pass {
        scope: p.scope.push_layer(),
        ..p
    }
}

// `low` is the first row of the newest layer's names.
pub fn close_scope(p: Pass, low: usize, work: &mut [u32]) -> Pass
    requires { Spacious p work.old × StartsLayer p work.old low }
    ensures { Becomes p work.old close_scope result work.new }
{
    Pass {
        scope: p.scope.pop_from(&mut work[..ENTRIES], low),
        ..p
    }
}

// The first row of the newest layer's names; they stand in the rows from it on, in the order they entered.
pub fn newest_layer(p: Pass, work: &[u32]) -> usize
    requires { Spacious p work.now }
    ensures { StartsLayer p work.now result }
{
    p.scope.newest_layer(&work[..ENTRIES])
}

// The live name in row i, the oldest being in row 0.
pub fn live_at(p: Pass, work: &[u32], i: usize) -> Row
    requires { Spacious p work.now × (i < p.scope.length) }
    ensures { TellsLive p work.now i result }
{
    p.scope.row_at(&work[..ENTRIES], i)
}
