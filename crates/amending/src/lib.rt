#![tactic(auto)]
// Captured lists on a second run: numbered where a lambda opens, amended where it closes. The pass and each table are parameters (`work::Pass` says why).
pub mod amend;
pub mod counts;
pub mod number;
