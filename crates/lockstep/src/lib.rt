#![tactic(auto)]
// The slot machine, and that it stays in step with the plain machine: both stand in specs/.
