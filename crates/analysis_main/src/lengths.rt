// How many numbers of each table are lent.
use answers::{FACTS, LIST_ENTRIES};
use work::WORK;

#[derive(Clone, Copy)]
pub struct Lengths {
    pub facts: usize,
    pub captured: usize,
    pub arguments: usize,
    pub work: usize,
}

// The set lengths.
pub const SET: Lengths = Lengths {
    facts: FACTS,
    captured: LIST_ENTRIES,
    arguments: LIST_ENTRIES,
    work: WORK,
};

pub const NONE: Lengths = Lengths {
    facts: 0,
    captured: 0,
    arguments: 0,
    work: 0,
};
