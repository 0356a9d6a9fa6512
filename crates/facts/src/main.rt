#![tactic(auto)]
// Reads the records of a script from standard input, and prints the facts of a fresh run.
ghost use Rattle.std.specs.Prelude.{◌≤◌, length};
ghost use Rattle.reading.specs.Held.{Starts};
ghost use Rattle.reading.specs.Reader.{SameLoans};
ghost use Rattle.facts.specs.Input.{More, Read, Printed};

use listing::{CLASS_TABLE, RECORD_TABLE, TEXT, text};
use reading::reader::{Reader, Reading};
use std::io;

// Some bytes more: answers how many. A read that fails counts as the end of the input.
fn read_chunk(input: &mut impl io::Read, reader: &mut Reader) -> usize
    ensures more { More reader.old.state reader.old.line.now reader.old.classes.now reader.old.records.now
        reader.new.state reader.new.line.now reader.new.classes.now reader.new.records.now }
    ensures same { SameLoans reader.old reader.new }
{
    let mut chunk = [0u8; 65536];
    let bytes = input.read(&mut chunk).unwrap_or(0);
    reader.feed(&chunk[..bytes]);
    bytes
}

// A proved loop has to end, and nothing says that the input does: no run uses up so many turns.
fn read_all(input: &mut impl io::Read, reader: &mut Reader)
    requires room { 92 ≤ length reader.old.line.now }
    requires starts { Starts reader.old.state }
    ensures read { Read reader.new.state reader.new.line.now reader.new.classes.now reader.new.records.now }
    ensures same { SameLoans reader.old reader.new }
{
    for _ in 0..u64::MAX {
        if read_chunk(input, reader) == 0 {
            return;
        }
    }
}

fn text_of_input(input: &mut impl io::Read, out: &mut [u8; TEXT]) -> usize
    ensures { Printed out.new result }
{
    let mut line = [0u8; 92];
    let mut classes = [0u8; CLASS_TABLE];
    let mut records = [0u32; RECORD_TABLE];
    let mut reader = Reader {
        state: Reading::start(),
        line: &mut line,
        classes: &mut classes,
        records: &mut records,
    };
    read_all(input, &mut reader);
    let r = reader.state;
    text(r, &classes, &records, out)
}

fn main(rt: HostRuntime) -> io::Result<()> {
    let mut out = [0u8; TEXT];
    let n = text_of_input(&mut rt.stdin(), &mut out);
    rt.write_all(&out[..n])
}
