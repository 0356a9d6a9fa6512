#![tactic(auto)]
// What the records of a tree say, without the pass: how many there are, which names they use, and what a define's body is.
pub mod body;
pub mod extent;
pub mod uses;
