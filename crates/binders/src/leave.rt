// Names of a lambda or a let, as they leave: their last uses, and the argument lists that keep them.
ghost use Rattle.std.specs.Prelude.{◌≡◌, ◌≤◌, ◌<◌, length};
ghost use Rattle.pass.specs.Run.{rows_most, list_entries_most, facts_length, list_entries_length};
ghost use Rattle.work.specs.Scope.{StartsLayer};
ghost use Rattle.binders.specs.Leave.{Marked, MarksLast, MarksLasts, BinderFits, LayerFits, NamesStore, StoresArgument, StoresLayer, StoresNames, NamesEnd, EndsParameters, LeavesNames};

use lists::captured::info_of;
use table::wide;
use walk::uses::Names;
use work::Pass;
use work::entries::load_entry;
use work::scope::{live_at, newest_id, newest_layer, remove_name};

// The last use that an entry tells, by its record counted from 1.
pub fn mark_last(last: u32, facts: &mut [u32])
    requires { (last ≤ rows_most) × (length facts.old ≡ facts_length) }
    ensures { MarksLast last facts.old facts.new }
{
    if last != 0 {
        semantic::amend::mark_last_usage(facts, wide(last - 1));
    }
}

// The last uses of the names in the newest layer, which stand from row `low` on.
pub fn mark_lasts(p: Pass, low: usize, facts: &mut [u32], work: &[u32])
    requires { Marked p facts.old work.now × StartsLayer p work.now low }
    ensures { MarksLasts p facts.old work.now facts.new }
{
    for i in low..p.scope.length {
        let r = live_at(p, work, i);
        let e = load_entry(work, wide(r.value));
        mark_last(e.last, facts);
    }
}

// The binder at b, as an argument list keeps it, in row `to`.
fn store_argument(all: &[u32], b: usize, to: usize, arguments: &mut [u32], work: &[u32])
    requires { BinderFits all.now b work.now × (to < list_entries_most) × (length arguments.old ≡ list_entries_length) }
    ensures { StoresArgument all.now b to arguments.old work.now arguments.new }
{
    let e = load_entry(work, b);
    semantic::list_entries::store_list_entry(
        arguments,
        to,
        tree::record::name(all, b),
        info_of(all, b, e),
    );
}

// The names of the newest layer as an argument list.
pub fn store_layer(all: &[u32], p: Pass, arguments: &mut [u32], work: &[u32]) -> Pass
    requires { LayerFits all.now p arguments.old work.now }
    ensures { StoresLayer all.now p arguments.old work.now result arguments.new }
{
    let mut to = p.arguments_top;
    for i in newest_layer(p, work)..p.scope.length {
        let r = live_at(p, work, i);
        store_argument(all, wide(r.value), to, arguments, work);
        to += 1;
    }
    Pass {
        arguments_top: to,
        ..p
    }
}

// A let's names as an argument list.
pub fn store_names(all: &[u32], names: Names, p: Pass, arguments: &mut [u32], work: &[u32]) -> Pass
    requires { NamesStore all.now names p arguments.old work.now }
    ensures { StoresNames all.now names p arguments.old work.now result arguments.new }
{
    let mut to = p.arguments_top;
    for at in names.first..names.first + names.count {
        store_argument(all, at, to, arguments, work);
        to += 1;
    }
    Pass {
        arguments_top: to,
        ..p
    }
}

// A parameter's fact takes its entry's uses, and the id of what it hides.
pub fn end_parameters(all: &[u32], names: Names, p: Pass, facts: &mut [u32], work: &[u32])
    requires { NamesEnd all.now names p facts.old work.now }
    ensures { EndsParameters all.now names p facts.old work.now facts.new }
{
    for at in names.first..names.first + names.count {
        let e = load_entry(work, at);
        let hidden = newest_id(all, p, work, tree::record::name(all, at));
        semantic::amend::end_parameter(facts, at, e.uses, hidden);
    }
}

// A let's names leave one by one, with their last uses marked.
pub fn leave_names(all: &[u32], names: Names, p: Pass, facts: &mut [u32], work: &mut [u32]) -> Pass
    requires { NamesEnd all.now names p facts.old work.old }
    ensures { LeavesNames all.now names p facts.old work.old result facts.new work.new }
{
    let mut q = p;
    for at in names.first..names.first + names.count {
        let e = load_entry(work, at);
        q = remove_name(q, work, tree::record::name(all, at));
        mark_last(e.last, facts);
    }
    q
}
