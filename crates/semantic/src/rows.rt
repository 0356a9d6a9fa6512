// Whole rows of the facts: stored and loaded. A table and a row's number are two parameters: C lends the table, and a struct of both would only
// be made anew at each call.
ghost use Rattle.std.specs.Prelude.{◌≡◌, ◌+◌, ◌*◌, ◌≤◌, length};
ghost use Rattle.semantic.specs.Rows.{Row, Blank, Variable, Function, CallSite, Let, row_width, put_row};
ghost use Rattle.semantic.specs.Leaves.{Stores, Tells};

use crate::fields::{ROW, call, function, lets};
use crate::{
    CallSiteInformation, FunctionInformation, LetInformation, SemanticInformation, fields,
};

// A fact that a row can hold, and the row's numbers.
pub trait Fact: Copy {
    ghost as_row: { Self → Row };

    fn numbers(self) -> [u32; ROW]
        ensures { result ≡ put_row (as_row self) };
}

impl Fact for SemanticInformation {
    ghost as_row = { Variable };

    #[tactic(auto, unfolding(crate::specs::Rows::put_row))]
    fn numbers(self) -> [u32; ROW] {
        [
            u32::from(self.kind),
            u32::from(self.set_bang),
            self.depth,
            self.shadows,
            self.usage_count,
            self.span.start,
            self.span.end,
            self.refers_to,
            self.aliases_to,
            u32::from(self.builtin),
            u32::from(self.last_usage),
            self.stack_offset,
            u32::from(self.escapes),
            self.capture_index,
            self.read_capture_offset,
            u32::from(self.captured_from_enclosing),
            self.heap_offset,
            self.read_heap_offset,
            u32::from(self.is_shadowed),
            u32::from(self.is_required_identifier),
        ]
    }
}

impl Fact for FunctionInformation {
    ghost as_row = { Function };

    #[tactic(auto, unfolding(crate::specs::Rows::put_row))]
    fn numbers(self) -> [u32; ROW] {
        let mut row = [0; ROW];
        row[0] = fields::FUNCTION;
        row[function::CAPTURED_FIRST] = self.captured_vars.first;
        row[function::CAPTURED_LENGTH] = self.captured_vars.length;
        row[function::ARGUMENTS_FIRST] = self.arguments.first;
        row[function::ARGUMENTS_LENGTH] = self.arguments.length;
        row[function::ESCAPES] = u32::from(self.escapes);
        row[function::ALIASES_TO] = self.aliases_to;
        row[function::DEPTH] = self.depth;
        row
    }
}

impl Fact for LetInformation {
    ghost as_row = { Let };

    #[tactic(auto, unfolding(crate::specs::Rows::put_row))]
    fn numbers(self) -> [u32; ROW] {
        let mut row = [0; ROW];
        row[0] = fields::LET;
        row[lets::STACK_OFFSET] = self.stack_offset;
        row[lets::FUNCTION_CONTEXT] = self.function_context;
        row[lets::ARGUMENTS_FIRST] = self.arguments.first;
        row[lets::ARGUMENTS_LENGTH] = self.arguments.length;
        row
    }
}

impl Fact for CallSiteInformation {
    ghost as_row = { CallSite };

    #[tactic(auto, unfolding(crate::specs::Rows::put_row))]
    fn numbers(self) -> [u32; ROW] {
        let mut row = [0; ROW];
        row[0] = fields::CALL_SITE;
        row[call::KIND] = u32::from(self.kind);
        row[call::SELF_NUMBER] = self.kind.self_number();
        row[call::START] = self.span.start;
        row[call::END] = self.span.end;
        row
    }
}

// The row's numbers become those of the fact.
pub fn store<F: Fact>(facts: &mut [u32], at: usize, fact: F)
    requires { row_width * at + row_width ≤ length facts.old }
    ensures { Stores put_row facts.old at (F.as_row fact) facts.new }
{
    table::put(facts, ROW * at, &fact.numbers());
}

pub fn row_at(facts: &[u32], at: usize) -> [u32; ROW]
    requires { row_width * at + row_width ≤ length facts.now }
    ensures { Tells put_row Blank put_row facts.now at result }
{
    let mut row = [0; ROW];
    table::get(facts, ROW * at, &mut row);
    row
}
