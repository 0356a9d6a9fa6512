// Lambdas, as they open and close: layers, parameters, lists and their fact.
ghost use Rattle.std.specs.Prelude.{◌≡◌, ◌≤◌, ◌<◌, length};
ghost use Rattle.pass.specs.Run.{list_entries_length};
ghost use Rattle.amending.specs.Contract.{SomeHeld};
ghost use Rattle.layers.specs.Contract.{LambdaFits, OpensLambda, LambdaEnds, ClosesLambda};
ghost use Rattle.binders.specs.Leave.{NamesEnd};
ghost use Rattle.layers.specs.Lambdas.{ListRoom, NumbersCaptures, context_within, ListOpens, OpensList, ListInside, EntersBy, ClosesLayers, entries_between, function_fact, ListsEnd, EndsLists};

use amending::amend::{Lambda, amend_list};
use amending::number::{heap_count, number_list};
use binders::enter::{Entering, enter_names, no_list, with_names};
use binders::leave::{end_parameters, mark_lasts, store_layer};
use lists::captured::store_captured;
use scope_map::ScopeMap;
use semantic::{FunctionInformation, IdentifierStatus, ListAt, NONE};
use walk::uses::Names;
use work::captures::{close_captures, open_captures};
use work::scope::{close_scope, newest_layer, open_scope};
use work::{Pass, narrow};

// The captures after the lambda's list is numbered, where it has a fact.
fn number_captures(
    v: Option<FunctionInformation>,
    p: Pass,
    captured: &mut [u32],
    work: &mut [u32],
) -> ScopeMap
    requires { ListRoom v p × SomeHeld p captured.old work.old }
    ensures { NumbersCaptures v p captured.old work.old result captured.new work.new }
{
    match v {
        Some(i) => number_list(i.captured_vars, p, captured, work).captures,
        None => p.captures,
    }
}

// A lambda that escapes ends the context.
fn context_within(v: Option<FunctionInformation>, context: u32) -> u32
    ensures { result ≡ context_within v context }
{
    match v {
        Some(i) if i.escapes => NONE,
        _ => context,
    }
}

// The captures' layer opens, with the lambda's list where it has a fact; one that escapes ends the context. The pass is built in one
// place: if each case returned one, it would be stored in narrow words and copied in wide ones, and such a copy waits for the stores
// (docs/SPEED.md, 49).
fn open_list(
    v: Option<FunctionInformation>,
    p: Pass,
    captured: &mut [u32],
    work: &mut [u32],
) -> Pass
    requires { ListOpens v p captured.old work.old }
    ensures { OpensList v p captured.old work.old result captured.new work.new }
{
    let o = open_captures(p);
    let captures = number_captures(v, o, captured, work);
    Pass {
        captures,
        context: context_within(v, p.context),
        ..o
    }
}

// What the parameters have in common.
fn entering(v: Option<FunctionInformation>, captured: &[u32]) -> Entering
    requires { ListInside v × (length captured.now ≡ list_entries_length) }
    ensures { EntersBy v captured.now result }
{
    let (heaps, before) = match v {
        Some(i) => (Some(heap_count(i.captured_vars, captured)), i.arguments),
        None => (None, no_list()),
    };
    Entering {
        kind: IdentifierStatus::Local,
        base: 0,
        heaps,
        before,
    }
}

pub fn open_lambda(
    all: &[u32],
    at: usize,
    names: Names,
    p: Pass,
    facts: &mut [u32],
    captured: &mut [u32],
    arguments: &[u32],
    work: &mut [u32],
) -> Pass
    requires { LambdaFits all.now at names p facts.old captured.old arguments.now work.old }
    ensures { OpensLambda all.now at names p facts.old captured.old arguments.now work.old
        result facts.new captured.new work.new }
{
    let v = semantic::kinds::function_at(facts, at);
    let o = open_list(v, p, captured, work);
    let q = open_scope(o);
    let g = entering(v, captured);
    let e = enter_names(all, names, g, q, facts, arguments, work);
    with_names(q, e)
}

// The layers of names and captures go, and what the names were is marked. Called in one place for both runs, so that it is inlined
// (docs/SPEED.md, 48).
fn close_layers(all: &[u32], names: Names, p: Pass, facts: &mut [u32], work: &mut [u32]) -> Pass
    requires { NamesEnd all.now names p facts.old work.old }
    ensures { ClosesLayers all.now names p facts.old work.old result facts.new work.new }
{
    let low = newest_layer(p, work);
    mark_lasts(p, low, facts, work);
    let o = close_scope(p, low, work);
    let q = close_captures(o, work);
    end_parameters(all, names, q, facts, work);
    q
}

// The list of the entries between two tops.
fn between(from: usize, to: usize) -> ListAt
    requires { (from ≤ to) × (to < 4294967296) }
    ensures { result ≡ entries_between from to }
{
    ListAt {
        first: narrow(from),
        length: narrow(to - from),
    }
}

// The first run makes the lists, the second amends the captured one. Answers the pass then, and where both lie: the captured one and the
// arguments.
fn end_lists(
    all: &[u32],
    at: usize,
    d: Lambda,
    v: Option<FunctionInformation>,
    p: Pass,
    captured: &mut [u32],
    arguments: &mut [u32],
    work: &mut [u32],
) -> (Pass, ListAt, ListAt)
    requires { ListsEnd all.now at d v p captured.old arguments.old work.old }
    ensures { EndsLists all.now at d v p captured.old arguments.old work.old
        result captured.new arguments.new work.new }
{
    match v {
        Some(i) => {
            let n = amend_list(all, d, i.captured_vars, p, captured, work);
            let kept = ListAt {
                length: narrow(n),
                ..i.captured_vars
            };
            (p, kept, i.arguments)
        }
        None => {
            let a = store_captured(all, at, d.names, p, captured, work);
            let b = store_layer(all, a, arguments, work);
            let made = between(p.captured_top, b.captured_top);
            let layer = between(p.arguments_top, b.arguments_top);
            (b, made, layer)
        }
    }
}

// The fact with its lists: a new one, or the one that the lambda has.
fn function_fact(
    v: Option<FunctionInformation>,
    captured: ListAt,
    arguments: ListAt,
    escapes: bool,
    depth: u32,
) -> FunctionInformation
    ensures { result ≡ function_fact v captured arguments escapes depth }
{
    match v {
        Some(i) => FunctionInformation {
            captured_vars: captured,
            arguments,
            ..i
        },
        None => FunctionInformation {
            captured_vars: captured,
            arguments,
            escapes,
            aliases_to: NONE,
            depth,
        },
    }
}

pub fn close_lambda(
    all: &[u32],
    at: usize,
    d: Lambda,
    escapes: bool,
    p: Pass,
    facts: &mut [u32],
    captured: &mut [u32],
    arguments: &mut [u32],
    work: &mut [u32],
) -> Pass
    requires { LambdaEnds all.now at d p facts.old captured.old arguments.old work.old }
    ensures { ClosesLambda all.now at d escapes p facts.old captured.old arguments.old work.old
        result facts.new captured.new arguments.new work.new }
{
    let found = semantic::kinds::function_at(facts, at);
    let (b, list, layer) = end_lists(all, at, d, found, p, captured, arguments, work);
    let q = close_layers(all, d.names, b, facts, work);
    let v = function_fact(found, list, layer, escapes, q.depth());
    semantic::rows::store(facts, at, v);
    q
}
