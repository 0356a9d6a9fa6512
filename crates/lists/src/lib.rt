#![tactic(auto)]
// Captured lists, made at a lambda's end. The pass and each table are parameters (`work::Pass` says why).
pub mod captured;
pub mod index;
pub mod order;
pub mod rows;
