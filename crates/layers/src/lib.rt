#![tactic(auto)]
// Lambdas and lets, as they open and close: layers, names, lists and their fact. The pass and each table are parameters
// (`work::Pass` says why).
pub mod lambda;
pub mod lets;
