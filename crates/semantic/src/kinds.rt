// What a row of the facts is, and what it says.
ghost use Rattle.std.specs.Prelude.{◌≡◌, ◌+◌, ◌*◌, ◌≤◌, length, get_or};
ghost use Rattle.semantic.specs.Rows.{Blank, row_width, put_row};
ghost use Rattle.semantic.specs.Kinds.{row_kind, is_blank, is_identifier, refers_in, function_in, let_in};
ghost use Rattle.semantic.specs.Leaves.{Tells};

use crate::fields::{ROW, function, lets, variable};
use crate::rows::row_at;
use crate::{FunctionInformation, LetInformation, ListAt, NONE, RowKind, fields};

// Whether the row holds no fact.
pub fn is_blank(facts: &[u32], at: usize) -> bool
    requires { row_width * at + row_width ≤ length facts.now }
    ensures { Tells put_row Blank is_blank facts.now at result }
{
    facts[ROW * at] == fields::BLANK
}

// Whether the row holds the fact of an identifier.
pub fn is_variable(facts: &[u32], at: usize) -> bool
    requires { row_width * at + row_width ≤ length facts.now }
    ensures { result ≡ is_identifier (get_or facts.now (row_width * at) 0) }
{
    let first = facts[ROW * at];
    first != fields::BLANK && first < fields::FUNCTION
}

pub fn row_kind(facts: &[u32], at: usize) -> RowKind
    requires { row_width * at + row_width ≤ length facts.now }
    ensures { Tells put_row Blank row_kind facts.now at result }
{
    let first = facts[ROW * at];
    match first {
        fields::BLANK => RowKind::Blank,
        1..=7 => RowKind::Variable,
        fields::FUNCTION => RowKind::Function,
        fields::LET => RowKind::Let,
        _ => RowKind::CallSite,
    }
}

// The id that the fact of an identifier refers to, or none.
pub fn refers_at(facts: &[u32], at: usize) -> u32
    requires { row_width * at + row_width ≤ length facts.now }
    ensures { Tells put_row Blank refers_in facts.now at result }
{
    if is_variable(facts, at) {
        return facts[ROW * at + variable::REFERS_TO];
    }
    NONE
}

// The fact of a lambda, if the row holds one.
pub fn function_at(facts: &[u32], at: usize) -> Option<FunctionInformation>
    requires { row_width * at + row_width ≤ length facts.now }
    ensures { Tells put_row Blank function_in facts.now at result }
{
    if facts[ROW * at] != fields::FUNCTION {
        return None;
    }
    let row = row_at(facts, at);
    Some(FunctionInformation {
        captured_vars: ListAt {
            first: row[function::CAPTURED_FIRST],
            length: row[function::CAPTURED_LENGTH],
        },
        arguments: ListAt {
            first: row[function::ARGUMENTS_FIRST],
            length: row[function::ARGUMENTS_LENGTH],
        },
        escapes: row[function::ESCAPES] == 1,
        aliases_to: row[function::ALIASES_TO],
        depth: row[function::DEPTH],
    })
}

// The fact of a let, if the row holds one.
pub fn let_at(facts: &[u32], at: usize) -> Option<LetInformation>
    requires { row_width * at + row_width ≤ length facts.now }
    ensures { Tells put_row Blank let_in facts.now at result }
{
    if facts[ROW * at] != fields::LET {
        return None;
    }
    let row = row_at(facts, at);
    Some(LetInformation {
        stack_offset: row[lets::STACK_OFFSET],
        function_context: row[lets::FUNCTION_CONTEXT],
        arguments: ListAt {
            first: row[lets::ARGUMENTS_FIRST],
            length: row[lets::ARGUMENTS_LENGTH],
        },
    })
}
