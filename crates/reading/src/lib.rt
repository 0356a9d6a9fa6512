#![tactic(auto)]
// The input, read through a buffer of one line.
pub mod line;
pub mod reader;
