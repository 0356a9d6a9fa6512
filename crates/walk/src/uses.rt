// Which names the records of an expression use, and whether a lambda stands among them.
ghost use Rattle.std.specs.Prelude.{◌≡◌, ◌+◌, ◌^◌, ◌<◌, length};
ghost use Rattle.tree.specs.Record.{records, nth};
ghost use Rattle.walk.specs.Bound.{is_named, bound_by};
ghost use Rattle.walk.specs.Contract.{SomeBody, UsesName, HoldsLambda, SomeNames, HoldsName};
ghost use Rattle.walk.specs.Marks.{Unmarked, MarksName, MarksNamed, MarksRecord, MarksUses};

use std::ops::Range;
use table::wide;
use tree::form::{IDENTIFIER, LAMBDA, SET};

// Names of a lambda or a let: the record of the first, and how many.
#[derive(Clone, Copy)]
pub struct Names {
    pub first: usize,
    pub count: usize,
}

impl Names {
    // The records of the names.
    pub fn records(self) -> Range<usize>
        requires { self.first + self.count < 2 ^ 64 }
        ensures { result ≡ record { start = self.first; end = self.first + self.count } }
    {
        self.first..self.first + self.count
    }
}

// Whether one of the names is x.
pub fn holds(all: &[u32], names: Names, x: u32) -> bool
    requires { SomeNames all.now names }
    ensures { HoldsName all.now names x result }
{
    names.records().any(|i| x == tree::record::name(all, i))
}

// Whether the record is an identifier of the name.
fn is_named(all: &[u32], i: usize, name: u32) -> bool
    requires { i < length (records all.now) }
    ensures { result ≡ is_named name (nth all.now i) }
{
    tree::record::form(all, i) == IDENTIFIER && name == tree::record::name(all, i)
}

// How many names the record binds, which stand right after it.
fn bound(all: &[u32], i: usize) -> usize
    requires { i < length (records all.now) }
    ensures { result ≡ bound_by (nth all.now i) }
{
    let form = tree::record::form(all, i);
    if form == SET {
        return 0;
    }
    tree::form::names(form, tree::record::count(all, i))
}

// Whether an identifier of the name is read or set in the records from `first` up to `end`. Names that are bound are passed by, but the
// target of a set! is a use.
pub fn uses_name(all: &[u32], first: usize, end: usize, name: u32) -> bool
    requires { SomeBody all.now first end }
    ensures { UsesName all.now first end name result }
{
    let mut due = 0;
    for i in first..end {
        if due == 0 {
            if is_named(all, i, name) {
                return true;
            }
            due = bound(all, i);
        } else {
            due -= 1;
        }
    }
    false
}

// Marks a name, if `marks` has it.
pub fn mark(marks: &mut [u8], x: usize)
    ensures { MarksName marks.old x marks.new }
{
    if x < marks.len() {
        marks[x] = 1;
    }
}

// Marks the record's name, if the record is an identifier.
fn mark_named(all: &[u32], i: usize, marks: &mut [u8])
    requires { i < length (records all.now) }
    ensures { MarksNamed (nth all.now i) marks.old marks.new }
{
    if tree::record::form(all, i) == IDENTIFIER {
        mark(marks, wide(tree::record::name(all, i)));
    }
}

// Passes record i, with so many names due; answers how many then are.
fn mark_record(all: &[u32], i: usize, due: usize, marks: &mut [u8]) -> usize
    requires { i < length (records all.now) }
    ensures { MarksRecord (nth all.now i) due marks.old result marks.new }
{
    if 0 < due {
        return due - 1;
    }
    mark_named(all, i, marks);
    bound(all, i)
}

// Marks every name that `uses_name` finds there.
pub fn mark_uses(all: &[u32], first: usize, end: usize, marks: &mut [u8])
    requires { SomeBody all.now first end × Unmarked marks.old }
    ensures { MarksUses all.now first end marks.new }
{
    let mut due = 0;
    for i in first..end {
        due = mark_record(all, i, due, marks);
    }
}

pub fn holds_lambda(all: &[u32], first: usize, end: usize) -> bool
    requires { SomeBody all.now first end }
    ensures { HoldsLambda all.now first end result }
{
    (first..end).any(|i| tree::record::form(all, i) == LAMBDA)
}
