// Trees in an array of records. What lies outside the array is not written. Only safety is proved here: what is built is seen in what the
// checks say of it, which is held to the file `stdout`.
use std::fmt;
use tree::form::{BEGIN, CONSTANT};
use tree::record::WIDTH;

pub const RECORDS: usize = 4097;

pub type Records = [[u32; WIDTH]; RECORDS];

// The good tree's records and names.
pub const GOOD: usize = 18;

pub const NAMES: usize = 2;

// A good tree over two names, with document 01's nine forms.
const GOOD_TREE: [[u32; WIDTH]; GOOD] = [
    // (define f (lambda (x) (if x #f (f x)))): records 0 to 9
    [5, 0, 0, 0, 0, 0],
    [1, 1, 0, 0, 0, 0],
    [6, 2, 0, 1, 0, 0],
    [1, 3, 1, 0, 0, 0],
    [3, 0, 0, 0, 0, 0],
    [1, 4, 1, 0, 0, 0],
    [2, 5, 1, 0, 0, 0],
    [8, 6, 0, 2, 0, 0],
    [1, 7, 0, 0, 0, 0],
    [1, 8, 1, 0, 0, 0],
    // (let ((x 1)) (begin (set! x 2) x)): records 10 to 17
    [4, 9, 0, 1, 0, 0],
    [1, 10, 1, 0, 0, 0],
    [2, 11, 0, 0, 0, 0],
    [7, 0, 0, 2, 0, 0],
    [9, 0, 0, 0, 0, 0],
    [1, 12, 1, 0, 0, 0],
    [2, 13, 0, 0, 0, 0],
    [1, 14, 1, 0, 0, 0],
];

// The good tree's records come first, and the rest stays. In place: by value an array would be copied for each line.
pub fn good(t: &mut Records) {
    t[..GOOD].copy_from_slice(&GOOD_TREE);
}

// Records i up to n.
pub fn constants(t: &mut Records, i: usize, n: usize) {
    for k in i..n.min(RECORDS) {
        t[k] = [CONSTANT, k as u32 + 1, 0, 0, 0, 0];
    }
}

// Each in the one before.
pub fn begins(t: &mut Records, i: usize, n: usize) {
    for k in i..n.min(RECORDS) {
        t[k] = [BEGIN, 0, 0, 1, 0, 0];
    }
}

#[derive(Clone, Copy)]
pub enum Field {
    Form,
    Id,
    Name,
    Count,
}

impl fmt::Display for Field {
    fn fmt<W: fmt::Write>(&self, f: &mut fmt::Formatter<W>) -> fmt::Result {
        match self {
            Field::Form => write!(f, "form"),
            Field::Id => write!(f, "id"),
            Field::Name => write!(f, "name"),
            Field::Count => write!(f, "count"),
        }
    }
}

// A field of a record, and what it is set to.
#[derive(Clone, Copy)]
pub struct Fault {
    record: usize,
    field: Field,
    value: u32,
}

impl Fault {
    pub fn new(record: usize, field: Field, value: u32) -> Fault {
        Fault {
            record,
            field,
            value,
        }
    }

    pub fn make(self, t: &mut Records) {
        if let Some(r) = t.get_mut(self.record) {
            match self.field {
                Field::Form => r[0] = self.value,
                Field::Id => r[1] = self.value,
                Field::Name => r[2] = self.value,
                Field::Count => r[3] = self.value,
            }
        }
    }
}

impl fmt::Display for Fault {
    fn fmt<W: fmt::Write>(&self, f: &mut fmt::Formatter<W>) -> fmt::Result {
        write!(f, "record={} {}={}", self.record, self.field, self.value)
    }
}
