#![tactic(auto)]
// What the operations promise of the facts that they leave: it stands in specs/.
