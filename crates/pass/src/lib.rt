#![tactic(auto)]
// The pass as a definition: it stands in specs/.
