#![tactic(auto)]
// Facts and refusals as lines of text. A line is made at the start of a buffer of at least 128 bytes; the answer is how many bytes it takes.
pub mod refusals;
pub mod rows;
pub mod summary;
mod text;
