#![tactic(auto)]
// What is claimed of the facts, and that it holds: both stand in specs/.
