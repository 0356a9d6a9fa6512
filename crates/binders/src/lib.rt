#![tactic(auto)]
// The names of a lambda or a let: they enter before its body is visited, and leave after it. The pass and each table are parameters (`work::Pass` says why).
pub mod enter;
pub mod leave;
