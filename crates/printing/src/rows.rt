// The line of a row of the facts.
ghost use Rattle.std.specs.Prelude.{◌+◌, ◌*◌, ◌≤◌, length, take};
ghost use Rattle.semantic.specs.Rows.{Blank, row_width, put_row};
ghost use Rattle.semantic.specs.Leaves.{Tells};
ghost use Rattle.printing.specs.Puts.{Line};
ghost use Rattle.printing.specs.Text.{row_text};
ghost use Rattle.printing.specs.Numbers.{variable_text, function_text, pair_text};

use crate::text::Text;
use semantic::RowKind;
use semantic::fields::{ROW, call, function, lets, variable};
use semantic::kinds::row_kind;
use semantic::rows::row_at;

fn variable_line(row: [u32; ROW], at: usize, out: &mut [u8]) -> usize
    requires { 128 ≤ length out.old }
    ensures { Line (variable_text at row) out.new result }
{
    let mut text = Text::new(out);
    text.number(b"at=", at as u64);
    text.number(b" kind=", row[variable::KIND] as u64);
    text.number(b" depth=", row[variable::DEPTH] as u64);
    text.number(b" uses=", row[variable::USAGE_COUNT] as u64);
    text.option(b" refers=", row[variable::REFERS_TO]);
    text.option(b" slot=", row[variable::STACK_OFFSET]);
    text.number(b" last=", row[variable::LAST_USAGE] as u64);
    text.word(b"\n");
    text.len
}

fn function_line(row: [u32; ROW], at: usize, out: &mut [u8]) -> usize
    requires { 128 ≤ length out.old }
    ensures { Line (function_text at row) out.new result }
{
    let mut text = Text::new(out);
    text.number(b"at=", at as u64);
    text.number(b" captured=", row[function::CAPTURED_LENGTH] as u64);
    text.number(b" escapes=", row[function::ESCAPES] as u64);
    text.number(b" depth=", row[function::DEPTH] as u64);
    text.word(b"\n");
    text.len
}

// The line of a let or a call: a number, and a number or none.
fn pair_line(at: usize, out: &mut [u8], first: &[u8], n: u32, second: &[u8], m: u32) -> usize
    requires { (128 ≤ length out.old) × (length first.now ≤ 8) × (length second.now ≤ 8) }
    ensures { Line (pair_text at first.now n second.now m) out.new result }
{
    let mut text = Text::new(out);
    text.number(b"at=", at as u64);
    text.number(first, n as u64);
    text.option(second, m);
    text.word(b"\n");
    text.len
}

// The line of the row, and none for a row without a fact.
pub fn row_line(facts: &[u32], at: usize, out: &mut [u8]) -> usize
    requires { (row_width * at + row_width ≤ length facts.now) × (128 ≤ length out.old) }
    ensures short { result ≤ 128 }
    ensures tells { Tells put_row Blank (row_text at) facts.now at (take result out.new) }
{
    let row = row_at(facts, at);
    let kind = row_kind(facts, at);
    match kind {
        RowKind::Blank => 0,
        RowKind::Variable => variable_line(row, at, out),
        RowKind::Function => function_line(row, at, out),
        RowKind::CallSite => pair_line(
            at,
            out,
            b" call=",
            row[call::KIND],
            b" self=",
            row[call::SELF_NUMBER],
        ),
        RowKind::Let => pair_line(
            at,
            out,
            b" let=",
            row[lets::STACK_OFFSET],
            b" in=",
            row[lets::FUNCTION_CONTEXT],
        ),
    }
}
