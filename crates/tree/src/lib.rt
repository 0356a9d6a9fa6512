#![tactic(auto)]
// The format: records by number, and their forms.
pub mod form;
pub mod record;
