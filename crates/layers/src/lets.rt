// Lets, as they open and close: names that enter and leave, and their fact.
ghost use Rattle.std.specs.Prelude.{List, ℕ, ◌<◌};
ghost use Rattle.pass.specs.Lambda.{at_bottom, open_layer, close_layer};
ghost use Rattle.work.specs.Works.{Spacious};
ghost use Rattle.work.specs.Leaves.{Becomes};
ghost use Rattle.layers.specs.Contract.{LetFits, OpensLet, LetEnds, ClosesLet};
ghost use Rattle.layers.specs.Lets.{AroundFits, TellsHeaps, TellsFunction, LetAt, TellsLet, MakeFits, MakesLet};

use amending::number::heap_count;
use binders::enter::{Entering, enter_names, no_list, with_names};
use binders::leave::{leave_names, store_names};
use flags::Around;
use semantic::{IdentifierStatus, LetInformation, ListAt, NONE};
use table::wide;
use walk::uses::Names;
use work::scope::{close_scope, newest_layer, open_scope};
use work::{Pass, narrow};

// How many heap entries the lambda around has.
fn heaps_around(f: Option<Around>, facts: &[u32], captured: &[u32]) -> Option<u32>
    requires { AroundFits f facts.now captured.now }
    ensures { TellsHeaps f facts.now captured.now result }
{
    let a = f?;
    let v = semantic::kinds::function_at(facts, wide(a.at))?;
    Some(heap_count(v.captured_vars, captured))
}

fn function_id(f: Option<Around>) -> u32
    ensures { TellsFunction f result }
{
    match f {
        Some(a) => a.id,
        None => NONE,
    }
}

fn let_arguments(facts: &[u32], at: usize) -> ListAt
    requires { LetAt at facts.now }
    ensures { TellsLet at facts.now result }
{
    match semantic::kinds::let_at(facts, at) {
        Some(v) => v.arguments,
        None => no_list(),
    }
}

// A let opens a layer only at depth 1.
fn open_layer(p: Pass) -> Pass
    requires { p.scope.depth < 4294967295 }
    ensures { (w : List ℕ) → Becomes p w (λ s. open_layer (at_bottom s) s) result w }
{
    if p.depth() == 1 { open_scope(p) } else { p }
}

pub fn open_let(
    all: &[u32],
    at: usize,
    names: Names,
    height: u32,
    f: Option<Around>,
    p: Pass,
    facts: &mut [u32],
    captured: &[u32],
    arguments: &[u32],
    work: &mut [u32],
) -> Pass
    requires { LetFits all.now at names height f p facts.old captured.now arguments.now work.old }
    ensures { OpensLet all.now at names height f p facts.old captured.now arguments.now work.old
        result facts.new work.new }
{
    let g = Entering {
        kind: IdentifierStatus::LetVar,
        base: height,
        heaps: heaps_around(f, facts, captured),
        before: let_arguments(facts, at),
    };
    let q = open_layer(p);
    let e = enter_names(all, names, g, q, facts, arguments, work);
    with_names(q, e)
}

// The let's fact, if it has none yet.
fn make_let(
    all: &[u32],
    blank: bool,
    at: usize,
    names: Names,
    height: u32,
    f: Option<Around>,
    p: Pass,
    facts: &mut [u32],
    arguments: &mut [u32],
    work: &[u32],
) -> Pass
    requires { MakeFits all.now blank at names f p facts.old arguments.old work.now }
    ensures { MakesLet all.now blank at names height f p facts.old arguments.old work.now
        result facts.new arguments.new }
{
    if !blank {
        return p;
    }
    let q = store_names(all, names, p, arguments, work);
    let list = ListAt {
        first: narrow(p.arguments_top),
        length: narrow(names.count),
    };
    let fact = LetInformation::new(height, function_id(f), list);
    semantic::rows::store(facts, at, fact);
    q
}

// That layer, where the let opened one, which its visit found out as it opened.
fn close_layer(opened: bool, p: Pass, work: &mut [u32]) -> Pass
    requires { Spacious p work.old }
    ensures { Becomes p work.old (close_layer opened) result work.new }
{
    if opened {
        let low = newest_layer(p, work);
        return close_scope(p, low, work);
    }
    p
}

pub fn close_let(
    all: &[u32],
    opened: bool,
    at: usize,
    names: Names,
    height: u32,
    f: Option<Around>,
    p: Pass,
    facts: &mut [u32],
    arguments: &mut [u32],
    work: &mut [u32],
) -> Pass
    requires { LetEnds all.now at names f p facts.old arguments.old work.old }
    ensures { ClosesLet all.now opened at names height f p facts.old arguments.old work.old
        result facts.new arguments.new work.new }
{
    let blank = semantic::kinds::is_blank(facts, at);
    let q = leave_names(all, names, p, facts, work);
    let r = make_let(all, blank, at, names, height, f, q, facts, arguments, work);
    close_layer(opened, r, work)
}
