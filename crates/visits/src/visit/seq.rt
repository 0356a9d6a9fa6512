// Children that stand in a row: those of a begin, of an and, and of a when or an unless.
ghost use Rattle.std.specs.Prelude.{◌≡◌};
ghost use Rattle.visits.specs.Lent.{lent, loan, form_at};
ghost use Rattle.visits.specs.Contract.{MayVisit, HasVisited, children, MayVisitRow, HasVisitedRow, IsWhen};

use crate::{AnalysisPass, Script};
use flags::{Flags, Part};
use semantic::IdentifierStatus;
use steps::enter_defines;
use table::wide;
use tree::record::part_at;

impl AnalysisPass<'_> {
    // k children in a row: the last stands in tail position where the whole does.
    #[cycle(visits)]
    fn visit_children(&mut self, s: &Script, rs: &[u32], k: usize, at: usize, f: Flags) -> usize
        requires { MayVisitRow children (lent s self) rs k at f }
        ensures { HasVisitedRow children (loan s self) rs k at f result }
    {
        let mut used = 0;
        for i in 0..k {
            let p = part_at(rs, used);
            let n = at + used;
            let last = i + 1 == k;
            let g = f.part(Part::Child(last));
            used += self.visit_part(s, p, n, g);
        }
        used
    }

    #[cycle(visits)]
    pub fn visit_begin(&mut self, s: &Script, rs: &[u32], at: usize, f: Flags) -> usize
        requires { MayVisit (lent s self) rs at f × (form_at s at ≡ 7) }
        ensures { HasVisited (loan s self) rs at f result }
    {
        let count = wide(tree::record::count(rs, 0));
        enter_defines(
            s.classes,
            s.all,
            at + 1,
            count,
            IdentifierStatus::LocallyDefinedFunction,
            &mut self.pass,
            self.facts,
            self.work,
        );
        let a = self.visit_children(s, part_at(rs, 1), count, at + 1, f.part(Part::InBegin));
        1 + a
    }

    // None of its names enters first: more than one child are the parts of an if.
    #[cycle(visits)]
    pub fn visit_and(&mut self, s: &Script, rs: &[u32], at: usize, f: Flags) -> usize
        requires { MayVisit (lent s self) rs at f × (form_at s at ≡ 10) }
        ensures { HasVisited (loan s self) rs at f result }
    {
        let count = wide(tree::record::count(rs, 0));
        let a = self.visit_children(
            s,
            part_at(rs, 1),
            count,
            at + 1,
            f.part(Part::InAnd(count == 1)),
        );
        1 + a
    }

    // A when or an unless: the test, then what follows as an inner begin.
    #[cycle(visits)]
    pub fn visit_when(&mut self, s: &Script, rs: &[u32], at: usize, f: Flags) -> usize
        requires { MayVisit (lent s self) rs at f × IsWhen (form_at s at) }
        ensures { HasVisited (loan s self) rs at f result }
    {
        let k = wide(tree::record::count(rs, 0)) - 1;
        let (g, h) = f.parts(Part::NotTail, Part::InBegin);
        let p = part_at(rs, 1);
        let n = at + 1;
        let a = self.visit_part(s, p, n, g);
        let first = at + 1 + a;
        enter_defines(
            s.classes,
            s.all,
            first,
            k,
            IdentifierStatus::LocallyDefinedFunction,
            &mut self.pass,
            self.facts,
            self.work,
        );
        let b = self.visit_children(s, part_at(rs, 1 + a), k, first, h);
        1 + a + b
    }
}
