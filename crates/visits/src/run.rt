// `run_with_scope`: a run over the top level.
ghost use Rattle.std.specs.Prelude.{◌≡◌, ◌<◌, length};
ghost use Rattle.tree.specs.Starts.{TellsStarts};
ghost use Rattle.work.specs.Tied.{raw};
ghost use Rattle.visits.specs.Lent.{lent, loan, form_at};
ghost use Rattle.visits.specs.Runs.{Ready, Runs, MayRun, HasRun};
ghost use Rattle.visits.specs.Tops.{MayEnterTop, HasEnteredTop, MayEnterTops, HasEnteredTops, MayBeginTop, HasBegunTop, leaves_top, MayVisitTop, HasVisitedTop, MayVisitTops, HasVisitedTops};

use crate::{AnalysisPass, Script};
use flags::Flags;
use semantic::{IdentifierStatus, NONE};
use steps::{enter_defines, enter_top_level_value};
use table::wide;
use tree::form::{BEGIN, DEFINE};
use tree::record::part_at;
use walk::body::{Body, body_at, core_at};
use work::Pass;

// The lambda defines at top level enter first, also those directly in a top-level begin.
fn enter_top(s: &Script, at: usize, p: &mut Pass, facts: &mut [u32], work: &mut [u32])
    requires { MayEnterTop s at p facts work }
    ensures { HasEnteredTop s at p facts work }
{
    let top = core_at(s.all, at);
    let form = tree::record::form(s.all, top);
    if form == BEGIN {
        let count = wide(tree::record::count(s.all, top));
        let kind = IdentifierStatus::Global;
        enter_defines(s.classes, s.all, top + 1, count, kind, p, facts, work);
        return;
    }
    if form == DEFINE {
        let kind = IdentifierStatus::Global;
        enter_defines(s.classes, s.all, top, 1, kind, p, facts, work);
    }
}

// The table of starts ends with the number of records.
fn enter_tops(tops: &[u16], s: &Script, p: &mut Pass, facts: &mut [u32], work: &mut [u32])
    requires { MayEnterTops tops s p facts work }
    ensures { HasEnteredTops s p facts work }
{
    let n = tree::record::len(s.all);
    for &top in tops {
        let at = usize::from(top);
        if n <= at {
            return;
        }
        enter_top(s, at, p, facts, work);
    }
}

// A value define enters before its body; a lambda define is the context of its body.
fn before_top_define(
    s: &Script,
    at: usize,
    b: Body,
    p: &mut Pass,
    facts: &mut [u32],
    work: &mut [u32],
)
    requires { MayBeginTop s at p facts work }
    ensures { HasBegunTop s at b p facts work }
{
    if b.lambda {
        p.context = tree::record::id(s.all, at + 1);
        return;
    }
    enter_top_level_value(s.all, at + 1, b, p, facts, work);
}

fn after_top_define(lambda: bool, p: &mut Pass)
    ensures { p.new ≡ leaves_top lambda p.old }
{
    if lambda {
        p.context = NONE;
    }
}

impl AnalysisPass<'_> {
    fn visit_top_define(&mut self, s: &Script, rs: &[u32], at: usize) -> usize
        requires { MayVisitTop (lent s self) rs at × (form_at s at ≡ 5) }
        ensures { HasVisitedTop (loan s self) rs at result }
    {
        let b = body_at(s.classes, s.all, at + 2);
        before_top_define(s, at, b, &mut self.pass, self.facts, self.work);
        let p = part_at(rs, 2);
        let n = at + 2;
        let f = Flags::top();
        let o = self.visit_body(s, p, n, f);
        after_top_define(b.lambda, &mut self.pass);
        2 + o
    }

    fn visit_top(&mut self, s: &Script, rs: &[u32], at: usize) -> usize
        requires { MayVisitTop (lent s self) rs at }
        ensures { HasVisitedTop (loan s self) rs at result }
    {
        if tree::record::form(rs, 0) == DEFINE {
            return self.visit_top_define(s, rs, at);
        }
        self.visit(s, rs, at, Flags::top())
    }

    // A top-level begin is passed by: its children stand at top level. `inside` are those still to come. No range: the next tree starts where
    // this one ends.
    fn visit_tops(&mut self, s: &Script)
        requires { MayVisitTops (lent s self) }
        ensures { HasVisitedTops (loan s self) }
    {
        let n = tree::record::len(s.all);
        let mut at = 0;
        let mut inside: usize = 0;
        while at < n {
            let top = core_at(s.all, at);
            if inside == 0 && tree::record::form(s.all, top) == BEGIN {
                inside = wide(tree::record::count(s.all, top));
                at = top + 1;
                continue;
            }
            let p = part_at(s.all, top);
            let used = self.visit_top(s, p, top);
            at = top + used;
            inside = inside.saturating_sub(1);
        }
    }

    // The names at top level enter, then its trees are visited.
    fn run(&mut self, s: &Script, tops: &[u16])
        requires { MayRun tops (lent s self) }
        ensures { HasRun (loan s self) }
    {
        enter_tops(tops, s, &mut self.pass, self.facts, self.work);
        self.visit_tops(s);
    }
}

pub fn run_with_scope(
    tops: &[u16],
    classes: &[u8],
    all: &[u32],
    p: Pass,
    facts: &mut [u32],
    captured: &mut [u32],
    arguments: &mut [u32],
    work: &mut [u32],
) -> Pass
    requires tells_starts { TellsStarts (length classes.now) all.now tops.now }
    requires ready { Ready classes.now all.now (raw p facts.old captured.old arguments.old work.old) }
    ensures { Runs classes.now all.now (raw p facts.old captured.old arguments.old work.old)
        (raw result facts.new captured.new arguments.new work.new) }
{
    let s = Script { classes, all };
    let mut a = AnalysisPass {
        pass: p,
        facts,
        captured,
        arguments,
        work,
    };
    a.run(&s, tops);
    a.pass
}
