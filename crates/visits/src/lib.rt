#![tactic(auto)]
// The walk over the trees: a visit for each form, and a run over the top level.
use work::Pass;

// A script: the class of each name, and the records.
#[derive(Clone, Copy)]
pub struct Script<'a> {
    pub classes: &'a [u8],
    pub all: &'a [u32],
}

// What a run changes: the pass's own numbers, and the tables that it is lent.
#[derive(Drop)]
pub struct AnalysisPass<'a> {
    pub pass: Pass,
    pub facts: &'a mut [u32],
    pub captured: &'a mut [u32],
    pub arguments: &'a mut [u32],
    pub work: &'a mut [u32],
}

pub mod run;
pub mod visit;
