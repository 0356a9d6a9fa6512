// Facts of identifiers changed in place. A row that holds no such fact stays as it is.
ghost use Rattle.std.specs.Prelude.{◌+◌, ◌*◌, ◌≤◌, ◌<◌, length};
ghost use Rattle.semantic.specs.Information.{shadows, with_usage_count, mark_set, mark_last_usage, mark_shadowed};
ghost use Rattle.semantic.specs.Rows.{Blank, row_width, put_row};
ghost use Rattle.semantic.specs.Amend.{amended, mark_if, one_use_more, used_or};
ghost use Rattle.semantic.specs.Leaves.{Amends, SetsNumber, UsesFit};

use crate::SemanticInformation;
use crate::fields::{ROW, variable};
use crate::kinds::{is_blank, is_variable};
use crate::rows::store;

// Writes a number of the row, if that holds the fact of an identifier.
fn set_number(facts: &mut [u32], at: usize, place: usize, x: u32)
    requires { (row_width * at + row_width ≤ length facts.old) × (place < row_width) }
    ensures { SetsNumber facts.old at place x facts.new }
{
    if is_variable(facts, at) {
        facts[ROW * at + place] = x;
    }
}

pub fn with_usage_count(facts: &mut [u32], at: usize, count: u32)
    requires { row_width * at + row_width ≤ length facts.old }
    ensures { Amends put_row Blank (amended (with_usage_count count)) facts.old at facts.new }
{
    set_number(facts, at, variable::USAGE_COUNT, count);
}

pub fn mark_set(facts: &mut [u32], at: usize)
    requires { row_width * at + row_width ≤ length facts.old }
    ensures { Amends put_row Blank (amended mark_set) facts.old at facts.new }
{
    set_number(facts, at, variable::SET_BANG, 1);
}

pub fn mark_last_usage(facts: &mut [u32], at: usize)
    requires { row_width * at + row_width ≤ length facts.old }
    ensures { Amends put_row Blank (amended mark_last_usage) facts.old at facts.new }
{
    set_number(facts, at, variable::LAST_USAGE, 1);
}

// The fact of a builtin is marked as shadowed.
pub fn shadow_if_builtin(facts: &mut [u32], at: usize)
    requires { row_width * at + row_width ≤ length facts.old }
    ensures { Amends put_row Blank (amended (λ i. mark_if i.builtin mark_shadowed i)) facts.old at facts.new }
{
    if facts[ROW * at + variable::BUILTIN] == 1 {
        set_number(facts, at, variable::IS_SHADOWED, 1);
    }
}

// A parameter's fact takes its uses, and the id of what it shadows, at the end.
pub fn end_parameter(facts: &mut [u32], at: usize, count: u32, id: u32)
    requires { row_width * at + row_width ≤ length facts.old }
    ensures { Amends put_row Blank (amended (λ i. shadows id (with_usage_count count i))) facts.old at facts.new }
{
    set_number(facts, at, variable::USAGE_COUNT, count);
    set_number(facts, at, variable::SHADOWS, id);
}

pub fn one_use_more(facts: &mut [u32], at: usize)
    requires { (row_width * at + row_width ≤ length facts.old) × UsesFit facts.old at }
    ensures { Amends put_row Blank (amended one_use_more) facts.old at facts.new }
{
    if is_variable(facts, at) {
        let count = ROW * at + variable::USAGE_COUNT;
        facts[count] = facts[count] + 1;
    }
}

// A fact made before counts one use more; where there is none, it is `i`.
pub fn use_or_store(facts: &mut [u32], at: usize, i: SemanticInformation)
    requires { (row_width * at + row_width ≤ length facts.old) × UsesFit facts.old at }
    ensures { Amends put_row Blank (used_or i) facts.old at facts.new }
{
    if is_blank(facts, at) {
        store(facts, at, i);
    } else {
        one_use_more(facts, at);
    }
}
