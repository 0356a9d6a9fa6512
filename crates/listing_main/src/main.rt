#![tactic(auto)]
// Prints the text of each of many inputs, as `facts` prints that of one. The inputs and how they were made: tools/listing/make.py.
ghost use Rattle.std.specs.Prelude.{true, ◌≡◌, ◌+◌, ◌≤◌, length};
ghost use Rattle.listing_main.specs.Parts.{Ends};

use listing::{CLASS_TABLE, RECORD_TABLE, TEXT, text};
use reading::reader::{Reader, Reading};
use std::io;
use std::io::Read;

// Where the next parting, `---` and LF, stands, or the end.
fn part_end(input: &[u8]) -> usize
    ensures { Ends input.now result }
{
    for i in 0..input.len() {
        if input[i..].starts_with(b"---\n") {
            return i;
        }
    }
    input.len()
}

fn print_one(rt: &impl Print, input: &[u8]) -> io::Result<()> {
    let mut line = [0u8; 92];
    let mut classes = [0u8; CLASS_TABLE];
    let mut records = [0u32; RECORD_TABLE];
    let mut out = [0u8; TEXT];
    let mut reader = Reader {
        state: Reading::start(),
        line: &mut line,
        classes: &mut classes,
        records: &mut records,
    };
    reader.feed(input);
    let r = reader.state;
    let n = text(r, &classes, &records, &mut out);
    rt.write_all(&out[..n])
}

fn print_parting(rt: &impl Print) -> io::Result<()> {
    println!(rt; "---")
}

fn print_all(rt: &impl Print, input: &[u8]) -> io::Result<()> {
    let mut rest = input;
    loop {
        let (part, more) = rest.split_at(part_end(rest));
        print_one(rt, part)?;
        if more.is_empty() {
            return Ok(());
        }
        print_parting(rt)?;
        rest = &more[4..];
    }
}

// Room for all inputs. The length alone is told.
fn space() -> [u8; 1048576]
    ensures { 1048576 ≡ length result }
{
    [0; 1048576]
}

// Reads until the buffer is full, the input ends or a read fails, and answers how many bytes it put at its start.
fn read_full(input: &mut impl Read, buf: &mut [u8]) -> usize
    ensures { result ≤ length buf.new }
{
    let mut done = 0;
    while done < buf.len() {
        let n = input.read(&mut buf[done..]).unwrap_or(0);
        if n == 0 {
            break;
        }
        done += n;
    }
    done
}

fn main(rt: HostRuntime) -> io::Result<()> {
    let mut input = space();
    let end = read_full(&mut rt.stdin(), &mut input);
    print_all(&rt, &input[..end])
}
