#![tactic(auto)]
// A name is read, set, or enters the scope.
pub mod define;
pub mod facts;
pub mod read;
