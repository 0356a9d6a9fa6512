// Defines: as they open and close, and the lambda defines that enter first. `enter_define` is handed a copy of the pass: what is handed by
// address is kept in memory from the start, also where nothing enters (docs/SPEED.md, 46).
ghost use Rattle.std.specs.Prelude.{length};
ghost use Rattle.names.specs.Contract.{with_name};
ghost use Rattle.forms.specs.Contract.{with_define, DefineFits, OpensDefine, EntersInnerValue, ClosesDefine, ChildFits, EntersChild, ChildrenFit, EntersChildren};

use names::define::{EnteredName, enter_define, name_in, with_name};
use semantic::{IdentifierStatus, NONE};
use walk::body::{Body, body_at, core_at};
use walk::extent::step_over;
use work::Pass;

// What a define changes of the pass as it opens, and as it closes.
#[derive(Clone, Copy)]
pub struct EnteredDefine {
    pub context: u32,
    pub name: EnteredName,
}

// The define at the record; `direct`: it stands directly in an inner begin, which has entered its lambda defines.
pub fn open_define(
    all: &[u32],
    at: usize,
    direct: bool,
    b: Body,
    p: Pass,
    facts: &mut [u32],
    work: &mut [u32],
) -> EnteredDefine
    requires { DefineFits all.now at p facts.old work.old }
    ensures { OpensDefine all.now at direct b p facts.old work.old (with_define result p) facts.new work.new }
{
    let id = tree::record::id(all, at + 1);
    if direct {
        return EnteredDefine {
            context: id,
            name: name_in(p),
        };
    }
    if b.lambda {
        let o = p;
        let name = enter_define(
            &*all,
            at + 1,
            IdentifierStatus::Local,
            NONE,
            b,
            o,
            facts,
            work,
        );
        return EnteredDefine { context: id, name };
    }
    EnteredDefine {
        context: p.context,
        name: name_in(p),
    }
}

// A value define enters after its body.
fn enter_inner_value(
    all: &[u32],
    at: usize,
    b: Body,
    p: Pass,
    facts: &mut [u32],
    work: &mut [u32],
) -> EnteredName
    requires { DefineFits all.now at p facts.old work.old }
    ensures { EntersInnerValue all.now at b p facts.old work.old (with_name result p) facts.new work.new }
{
    if b.lambda {
        return name_in(p);
    }
    let o = p;
    enter_define(
        &*all,
        at + 1,
        IdentifierStatus::Local,
        NONE,
        b,
        o,
        facts,
        work,
    )
}

pub fn close_define(
    all: &[u32],
    at: usize,
    direct: bool,
    context: u32,
    b: Body,
    p: Pass,
    facts: &mut [u32],
    work: &mut [u32],
) -> EnteredDefine
    requires { DefineFits all.now at p facts.old work.old }
    ensures { ClosesDefine all.now at direct context b p facts.old work.old (with_define result p) facts.new work.new }
{
    let name = enter_inner_value(all, at, b, p, facts, work);
    if direct || b.lambda {
        EnteredDefine { context, name }
    } else {
        EnteredDefine {
            context: p.context,
            name,
        }
    }
}

// The define of a lambda at the record, if it is one, enters with this kind. Called in one place, so that it is inlined (docs/SPEED.md, 48).
fn enter_child(
    classes: &[u8],
    all: &[u32],
    at: usize,
    kind: IdentifierStatus,
    p: Pass,
    facts: &mut [u32],
    work: &mut [u32],
) -> EnteredName
    requires { ChildFits (length classes.now) all.now at p facts.old work.old }
    ensures { EntersChild classes.now all.now at kind p facts.old work.old (with_name result p) facts.new work.new }
{
    if tree::record::form(all, at) != tree::form::DEFINE {
        return name_in(p);
    }
    let b = body_at(classes, all, at + 2);
    if b.lambda {
        let o = p;
        return enter_define(&*all, at + 1, kind, NONE, b, o, facts, work);
    }
    name_in(p)
}

// The lambda defines among k trees, the first at the record `first`. From one to the next goes only what they changed (docs/SPEED.md, 43 and 48).
pub fn enter_children(
    classes: &[u8],
    all: &[u32],
    first: usize,
    k: usize,
    kind: IdentifierStatus,
    p: Pass,
    facts: &mut [u32],
    work: &mut [u32],
) -> EnteredName
    requires { ChildrenFit (length classes.now) all.now first k p facts.old work.old }
    ensures { EntersChildren classes.now all.now first k kind p facts.old work.old
        (with_name result p) facts.new work.new }
{
    let mut e = name_in(p);
    let mut at = first;
    for i in 0..k {
        let q = with_name(p, e);
        e = enter_child(classes, all, core_at(all, at), kind, q, facts, work);
        at += step_over(all, at, k - 1 - i);
    }
    e
}
