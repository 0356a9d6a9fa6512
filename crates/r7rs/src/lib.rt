#![tactic(auto)]
// What R7RS says of a tree, and the plain machine: they stand in specs/.
