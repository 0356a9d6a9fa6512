#![tactic(auto)]
// What is proved of the pass for every tree: it stands in specs/.
