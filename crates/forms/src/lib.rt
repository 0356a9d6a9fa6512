#![tactic(auto)]
// What a call, a set! and a define do beside visiting their parts. The pass and each table are parameters (`work::Pass` says why).
pub mod calls;
pub mod defines;
