// The input, byte by byte, through a buffer of one line and the tables for what it says. What the tables have no room for is counted only.
ghost use Rattle.std.specs.Prelude.{◌≡◌, ℕ, ◌∷◌, [], ◌≤◌, List, length, take, set};
ghost use Rattle.printing.specs.Text.{names_marks, class_marks, record_marks};
ghost use Rattle.reading.specs.Reading.{numbers_of};
ghost use Rattle.reading.specs.Found.{ones};
ghost use Rattle.reading.specs.Held.{spoiled, Starts, First, Class, Entry, Finished, RowStored};

use crate::line::{record, single};
use tree::record::WIDTH;

// What was read so far. Numbers of lines and records stop at the largest that there is. Before the first line has ended the numbers of names, classes and
// records are free, and after a bad line all but `bad` are: they stay as they were then.
#[derive(Clone, Copy)]
pub struct Reading {
    // lines that have ended
    pub lines: u64,
    // the first bad one
    pub bad: Option<u64>,
    pub names: u64,
    pub classes: u64,
    pub records: u64,
    // bytes of the line that has not ended
    pub length: usize,
}

// How many classes and records a good input has.
#[derive(Clone, Copy)]
pub struct Counts {
    pub classes: u64,
    pub records: u64,
}

// The number of the first line that differs or is missing.
#[derive(Clone, Copy)]
pub struct BadLine(pub u64);

// Not `get_mut`: where it gives none the proof that the slice is as it was did not close.
fn store_class(classes: &mut [u8], at: u64, c: u8)
    ensures { classes.new ≡ set classes.old at c }
{
    let i = at as usize;
    if i < classes.len() {
        classes[i] = c;
    }
}

fn store_record(records: &mut [u32], at: u64, row: [u32; WIDTH])
    ensures { RowStored records.old at row records.new }
{
    let i = at as usize;
    if i < records.len() / WIDTH {
        table::put(records, WIDTH * i, &row);
    }
}

impl Reading {
    pub fn start() -> Reading
        ensures { Starts result }
    {
        Reading {
            lines: 0,
            bad: None,
            names: 0,
            classes: 0,
            records: 0,
            length: 0,
        }
    }

    // The line after those that have ended is bad.
    fn spoiled(self) -> Reading
        ensures { result ≡ spoiled self }
    {
        Reading {
            bad: Some(self.lines.saturating_add(1)),
            ..self
        }
    }

    // The first line says how many names there are.
    fn first_line(self, names: Option<u32>) -> Reading
        ensures { (l : List ℕ) → numbers_of names_marks l ≡ ones names → First l self result }
    {
        let Some(n) = names else {
            return self.spoiled();
        };
        Reading {
            lines: 1,
            bad: None,
            names: n as u64,
            classes: 0,
            records: 0,
            length: 0,
        }
    }

    fn class_line(self, class: Option<u32>, classes: &mut [u8]) -> Reading
        ensures { (l : List ℕ) → numbers_of class_marks l ≡ ones class → Class l self classes.old result classes.new }
    {
        let Some(c) = class else {
            return self.spoiled();
        };
        if c > 255 {
            return self.spoiled();
        }
        store_class(classes, self.classes, c as u8);
        Reading {
            lines: self.lines.saturating_add(1),
            classes: self.classes.saturating_add(1),
            length: 0,
            ..self
        }
    }

    fn record_line(self, row: Option<[u32; WIDTH]>, records: &mut [u32]) -> Reading
        ensures { (l : List ℕ) → numbers_of record_marks l ≡ row → Entry l self records.old result records.new }
    {
        let Some(row) = row else {
            return self.spoiled();
        };
        store_record(records, self.records, row);
        Reading {
            lines: self.lines.saturating_add(1),
            records: self.records.saturating_add(1),
            length: 0,
            ..self
        }
    }

    // The input has ended. Of a state that holds no input the answer is `ended` too.
    pub fn finish(self) -> Result<Counts, BadLine>
        ensures { Finished self result }
    {
        if let Some(bad) = self.bad {
            return Err(BadLine(bad));
        }
        if self.length != 0 {
            return Err(BadLine(self.lines.saturating_add(1)));
        }
        if self.lines == 0 {
            return Err(BadLine(1));
        }
        if self.classes < self.names {
            return Err(BadLine(self.lines.saturating_add(1)));
        }
        Ok(Counts {
            classes: self.classes,
            records: self.records,
        })
    }
}

// What was read, with what is lent for it: a buffer for the line that has not ended, and tables for the classes and the records. It starts with
// `Reading::start()`.
#[derive(Drop)]
pub struct Reader<'a> {
    pub state: Reading,
    pub line: &'a mut [u8],
    pub classes: &'a mut [u8],
    pub records: &'a mut [u32],
}

impl<'a> Reader<'a> {
    ghost use Rattle.reading.specs.Reader.{SameLoans, Feeds, Turns};

    // The line that has not ended.
    fn begun(&self) -> &[u8]
        requires { self.now.state.length ≤ length self.now.line.now }
        ensures { result.now ≡ take self.now.state.length self.now.line.now }
    {
        &self.line[..self.state.length]
    }

    // An LF has come: the line is whole.
    fn end_line(&mut self)
        requires { self.old.state.length ≤ length self.old.line.now }
        ensures same { SameLoans self.old self.new }
        ensures turns { Turns self.old self.new }
    {
        let r = self.state;
        if r.lines == 0 {
            let names = single(self.begun(), b"names=");
            self.state = r.first_line(names);
            return;
        }
        if r.classes < r.names {
            let class = single(self.begun(), b"class=");
            self.state = r.class_line(class, self.classes);
            return;
        }
        let row = record(self.begun());
        self.state = r.record_line(row, self.records);
    }

    fn byte(&mut self, x: u8)
        ensures same { SameLoans self.old self.new }
        ensures feeds { Feeds (x ∷ []) self.old self.new }
    {
        let n = self.state.length;
        if self.state.bad.is_some() {
            return;
        }
        if self.line.len() < n {
            self.state = self.state.spoiled();
            return;
        }
        if x == b'\n' {
            self.end_line();
            return;
        }
        if n == self.line.len() {
            self.state = self.state.spoiled();
            return;
        }
        self.line[n] = x;
        self.state.length = n + 1;
    }

    // What was read, with the bytes of the chunk after it. Left free: the line buffer past the line that has not ended, the tables past what was read, a table
    // that has no room for all of it, and everything where the state held no input before, as one made by hand or with a line buffer of less than 92 bytes.
    // What holds of these all the same (`Leaves`): every length stays, entries are written only for what was now read, and after a bad line nothing is changed.
    pub fn feed(&mut self, chunk: &[u8])
        ensures same { SameLoans self.old self.new }
        ensures feeds { Feeds chunk.now self.old self.new }
    {
        for &x in chunk {
            self.byte(x);
        }
    }
}
