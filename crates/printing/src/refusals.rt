// What is printed where there are no facts.
ghost use Rattle.std.specs.Prelude.{◌≤◌, length};
ghost use Rattle.printing.specs.Puts.{Line};
ghost use Rattle.printing.specs.Text.{refused_text, bad_text};

use crate::text::Text;

pub fn refused_line(number: u64, at: u64, out: &mut [u8]) -> usize
    requires { 128 ≤ length out.old }
    ensures { Line (refused_text number at) out.new result }
{
    let mut text = Text::new(out);
    text.number(b"refused=", number);
    text.number(b" at=", at);
    text.word(b"\n");
    text.len
}

// The first line of the input that differs.
pub fn bad_line(line: u64, out: &mut [u8]) -> usize
    requires { 128 ≤ length out.old }
    ensures { Line (bad_text line) out.new result }
{
    let mut text = Text::new(out);
    text.number(b"bad=", line);
    text.word(b"\n");
    text.len
}
