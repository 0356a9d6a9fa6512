// The visits. Each is given the part of the records that starts at its expression, reads its own record there, and tells how many records it used. What
// it does beside visiting parts goes by the number of the record among all. A child that is visited next has the number n, and p is the part that
// starts at it. The pass, and a table that is only read, go into a local before the other tables are lent (docs/SPEED.md, 42).

// The forms that hold expressions in a row.
mod seq;

ghost use Rattle.std.specs.Prelude.{◌≡◌};
ghost use Rattle.visits.specs.Lent.{lent, loan, form_at};
ghost use Rattle.visits.specs.Contract.{MayVisit, HasVisited, values, MayVisitRow, HasVisitedRow};

use crate::{AnalysisPass, Script};
use amending::amend::Lambda;
use flags::{Flags, Part};
use forms::calls::{clear_context, close_call};
use layers::lambda::{close_lambda, open_lambda};
use layers::lets::{close_let, open_let};
use names::read::mutate;
use semantic::NONE;
use steps::{close_define, open_define};
use table::wide;
use tree::form::{CONSTANT, IDENTIFIER, LAMBDA};
use tree::record::part_at;
use walk::body::{body_at, core_at};
use walk::extent::extent_at;
use walk::uses::Names;
use work::narrow;

impl AnalysisPass<'_> {
    // A lambda's visit is handed a copy of the reference to the part (docs/SPEED.md, 49).
    #[cycle(visits)]
    pub fn visit(&mut self, s: &Script, rs: &[u32], at: usize, f: Flags) -> usize
        requires { MayVisit (lent s self) rs at f }
        ensures { HasVisited (loan s self) rs at f result }
    {
        let form = tree::record::form(rs, 0);
        match form {
            1..=2 => {
                let captured = &mut *self.captured;
                steps::visit_atom(
                    s.classes,
                    s.all,
                    form,
                    at,
                    &mut self.pass,
                    self.facts,
                    captured,
                    self.work,
                );
                1
            }
            3 => self.visit_if(s, rs, at, f),
            4 => self.visit_let(s, rs, at, f),
            5 => self.visit_define(s, rs, at, f),
            6 => {
                let p = &*rs;
                self.visit_lambda_function(s, p, at, f)
            }
            7 => self.visit_begin(s, rs, at, f),
            8 => self.visit_list(s, rs, at, f),
            9 => self.visit_set(s, rs, at, f),
            10 => self.visit_and(s, rs, at, f),
            11..=12 => self.visit_when(s, rs, at, f),
            _ => 1,
        }
    }

    // A part of an expression. Many parts are identifiers and constants: they need no call of `visit` (docs/SPEED.md, 44), and flags are stored for that
    // call alone, as it is handed a copy (46), also of the reference to the part (49).
    #[cycle(visits)]
    pub fn visit_part(&mut self, s: &Script, rs: &[u32], at: usize, f: Flags) -> usize
        requires { MayVisit (lent s self) rs at f }
        ensures { HasVisited (loan s self) rs at f result }
    {
        let form = tree::record::form(rs, 0);
        if form <= CONSTANT {
            let captured = &mut *self.captured;
            steps::visit_atom(
                s.classes,
                s.all,
                form,
                at,
                &mut self.pass,
                self.facts,
                captured,
                self.work,
            );
            return 1;
        }
        let g = f;
        let p = &*rs;
        self.visit(s, p, at, g)
    }

    #[cycle(visits)]
    fn visit_if(&mut self, s: &Script, rs: &[u32], at: usize, f: Flags) -> usize
        requires { MayVisit (lent s self) rs at f × (form_at s at ≡ 3) }
        ensures { HasVisited (loan s self) rs at f result }
    {
        let g = f.part(Part::SameTail);
        let h = f.part(Part::NotTail);
        let p = part_at(rs, 1);
        let n = at + 1;
        let a = self.visit_part(s, p, n, h);
        let i = 1 + a;
        let p = part_at(rs, i);
        let n = at + i;
        let b = self.visit_part(s, p, n, g);
        let j = i + b;
        let p = part_at(rs, j);
        let n = at + j;
        let c = self.visit_part(s, p, n, g);
        j + c
    }

    // k arguments or initial expressions: each pushes a value.
    #[cycle(visits)]
    fn visit_arguments(&mut self, s: &Script, rs: &[u32], k: usize, at: usize, f: Flags) -> usize
        requires { MayVisitRow values (lent s self) rs k at f }
        ensures { HasVisitedRow values (loan s self) rs k at f result }
    {
        let mut g = f;
        let mut used = 0;
        for _ in 0..k {
            let p = part_at(rs, used);
            let n = at + used;
            used += self.visit_part(s, p, n, g);
            g = g.part(Part::Next);
        }
        used
    }

    #[cycle(visits)]
    fn visit_let(&mut self, s: &Script, rs: &[u32], at: usize, f: Flags) -> usize
        requires { MayVisit (lent s self) rs at f × (form_at s at ≡ 4) }
        ensures { HasVisited (loan s self) rs at f result }
    {
        let many = tree::record::count(rs, 0);
        let count = wide(many);
        let first = at + 1;
        let names = Names { first, count };
        let opened = self.pass.scope.depth == 1;
        let around = f.function;
        let outer = self.pass.context;
        let (g, h) = f.parts(Part::NotTail, Part::LetBody(many));
        self.pass.context = NONE;
        let a = self.visit_arguments(s, part_at(rs, 1 + count), count, at + 1 + count, g);
        self.pass.context = outer;
        let pass = self.pass;
        let captured = &mut *self.captured;
        let arguments = &mut *self.arguments;
        self.pass = open_let(
            s.all, at, names, f.height, around, pass, self.facts, captured, arguments, self.work,
        );
        let i = 1 + count + a;
        let p = part_at(rs, i);
        let n = at + i;
        let b = self.visit_part(s, p, n, h);
        let pass = self.pass;
        self.pass = close_let(
            s.all,
            opened,
            at,
            names,
            f.height,
            around,
            pass,
            self.facts,
            self.arguments,
            self.work,
        );
        i + b
    }

    #[cycle(visits)]
    fn visit_define(&mut self, s: &Script, rs: &[u32], at: usize, f: Flags) -> usize
        requires { MayVisit (lent s self) rs at f × (form_at s at ≡ 5) }
        ensures { HasVisited (loan s self) rs at f result }
    {
        let b = body_at(s.classes, s.all, at + 2);
        let outer = self.pass.context;
        open_define(
            s.all,
            at,
            f.direct,
            b,
            &mut self.pass,
            self.facts,
            self.work,
        );
        let p = part_at(rs, 2);
        let n = at + 2;
        let g = f.part(Part::DefineBody);
        let o = self.visit_body(s, p, n, g);
        close_define(
            s.all,
            at,
            f.direct,
            outer,
            b,
            &mut self.pass,
            self.facts,
            self.work,
        );
        2 + o
    }

    // The body of a lambda or of a define: it is often a lambda, and then needs no call of `visit`. `visit_lambda_function` calls itself through this one:
    // so the compiler keeps the arrays of a lambda's end out of the frames of the visits (docs/SPEED.md, 44).
    #[cycle(visits)]
    pub fn visit_body(&mut self, s: &Script, rs: &[u32], at: usize, f: Flags) -> usize
        requires { MayVisit (lent s self) rs at f }
        ensures { HasVisited (loan s self) rs at f result }
    {
        if tree::record::form(rs, 0) == LAMBDA {
            return self.visit_lambda_function(s, rs, at, f);
        }
        self.visit_part(s, rs, at, f)
    }

    #[cycle(visits)]
    fn visit_lambda_function(&mut self, s: &Script, rs: &[u32], at: usize, f: Flags) -> usize
        requires { MayVisit (lent s self) rs at f × (form_at s at ≡ 6) }
        ensures { HasVisited (loan s self) rs at f result }
    {
        let many = tree::record::count(rs, 0);
        let count = wide(many);
        let first = at + 1;
        let names = Names { first, count };
        let pass = self.pass;
        let arguments = &mut *self.arguments;
        self.pass = open_lambda(
            s.all,
            at,
            names,
            pass,
            self.facts,
            self.captured,
            arguments,
            self.work,
        );
        let p = part_at(rs, 1 + count);
        let n = at + 1 + count;
        let g = f.part(Part::Body(at, tree::record::id(rs, 0), many));
        let o = self.visit_body(s, p, n, g);
        let first = n;
        let end = n + o;
        let d = Lambda { names, first, end };
        let escape = f.escape;
        let pass = self.pass;
        self.pass = close_lambda(
            s.all,
            at,
            d,
            escape,
            pass,
            self.facts,
            self.captured,
            self.arguments,
            self.work,
        );
        1 + count + o
    }

    #[cycle(visits)]
    fn visit_list(&mut self, s: &Script, rs: &[u32], at: usize, f: Flags) -> usize
        requires { MayVisit (lent s self) rs at f × (form_at s at ≡ 8) }
        ensures { HasVisited (loan s self) rs at f result }
    {
        let k = wide(tree::record::count(rs, 0)) - 1;
        let head = extent_at(s.all, at + 1);
        let first = at + 1 + head;
        let lambda = tree::record::form(s.all, core_at(s.all, at + 1)) == LAMBDA;
        let a = self.visit_arguments(s, part_at(rs, 1 + head), k, first, f.part(Part::Argument));
        let p = part_at(rs, 1);
        let n = at + 1;
        let g = f.part(Part::Head(lambda, narrow(k)));
        self.visit_part(s, p, n, g);
        let pass = self.pass;
        let work = &mut *self.work;
        close_call(
            s.all, at, first, k, f.tail, f.counter, pass, self.facts, work,
        );
        1 + head + a
    }

    #[cycle(visits)]
    fn visit_set(&mut self, s: &Script, rs: &[u32], at: usize, f: Flags) -> usize
        requires { MayVisit (lent s self) rs at f × (form_at s at ≡ 9) }
        ensures { HasVisited (loan s self) rs at f result }
    {
        let pass = self.pass;
        let facts = &mut *self.facts;
        self.pass.context = clear_context(at + 1, pass, facts);
        let p = part_at(rs, 2);
        let n = at + 2;
        let g = f.part(Part::NotTail);
        let o = self.visit_part(s, p, n, g);
        let pass = self.pass;
        mutate(tree::record::name(rs, 1), pass, self.facts, self.work);
        let captured = &mut *self.captured;
        steps::visit_atom(
            s.classes,
            s.all,
            IDENTIFIER,
            at + 1,
            &mut self.pass,
            self.facts,
            captured,
            self.work,
        );
        2 + o
    }
}
