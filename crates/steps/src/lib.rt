#![tactic(auto)]
// What a visit does beside visiting the parts of its expression, where that changes numbers of the pass.
ghost use Rattle.std.specs.Prelude.{◌≡◌, length};
ghost use Rattle.names.specs.Contract.{with_name, Room, Defined, EntersValue};
ghost use Rattle.forms.specs.Contract.{DefineFits, OpensDefine, ClosesDefine, ChildrenFit, EntersChildren};
ghost use Rattle.steps.specs.Contract.{AtomFits, VisitsAtom};

use forms::defines::enter_children;
use names::define::EnteredName;
use names::read::read;
use semantic::IdentifierStatus;
use walk::body::Body;
use work::Pass;

// An identifier or a constant, which its form tells. For a constant nothing is done. `read` is handed copies of the references (docs/SPEED.md, 46).
pub fn visit_atom(
    classes: &[u8],
    all: &[u32],
    form: u32,
    at: usize,
    p: &mut Pass,
    facts: &mut [u32],
    captured: &[u32],
    work: &mut [u32],
)
    requires { AtomFits (length classes.now) all.now form at p.old facts.old captured.now work.old }
    ensures { VisitsAtom classes.now all.now at p.old facts.old captured.now work.old
        p.new facts.new work.new }
{
    if form != tree::form::IDENTIFIER {
        return;
    }
    p.second = read(&*classes, &*all, at, *p, facts, &*captured, work);
}

// What a name that entered changed.
pub fn put_name(p: &mut Pass, e: EnteredName)
    ensures { p.new ≡ with_name e p.old }
{
    p.scope.length = e.length;
    p.nine = e.nine;
}

pub fn open_define(
    all: &[u32],
    at: usize,
    direct: bool,
    b: Body,
    p: &mut Pass,
    facts: &mut [u32],
    work: &mut [u32],
)
    requires { DefineFits all.now at p.old facts.old work.old }
    ensures { OpensDefine all.now at direct b p.old facts.old work.old
        p.new facts.new work.new }
{
    let d = forms::defines::open_define(all, at, direct, b, *p, facts, work);
    p.context = d.context;
    put_name(p, d.name);
}

pub fn close_define(
    all: &[u32],
    at: usize,
    direct: bool,
    context: u32,
    b: Body,
    p: &mut Pass,
    facts: &mut [u32],
    work: &mut [u32],
)
    requires { DefineFits all.now at p.old facts.old work.old }
    ensures { ClosesDefine all.now at direct context b p.old facts.old work.old
        p.new facts.new work.new }
{
    let d = forms::defines::close_define(all, at, direct, context, b, *p, facts, work);
    p.context = d.context;
    put_name(p, d.name);
}

// The lambda defines among k trees, the first at the record `first`, enter with this kind.
pub fn enter_defines(
    classes: &[u8],
    all: &[u32],
    first: usize,
    k: usize,
    kind: IdentifierStatus,
    p: &mut Pass,
    facts: &mut [u32],
    work: &mut [u32],
)
    requires { ChildrenFit (length classes.now) all.now first k p.old facts.old work.old }
    ensures { EntersChildren classes.now all.now first k kind p.old facts.old work.old
        p.new facts.new work.new }
{
    let e = enter_children(classes, all, first, k, kind, *p, facts, work);
    put_name(p, e);
}

pub fn enter_top_level_value(
    all: &[u32],
    at: usize,
    b: Body,
    p: &mut Pass,
    facts: &mut [u32],
    work: &mut [u32],
)
    requires { Room p.old × Defined all.now at p.old facts.old work.old }
    ensures { EntersValue b all.now at p.old facts.old work.old p.new facts.new work.new }
{
    let e = names::define::enter_top_level_value(all, at, b, *p, facts, work);
    put_name(p, e);
}
