#![tactic(auto)]
// Trees at the limits and damaged trees, each with what the checks say of it.
mod build;
mod cases;
mod say;
mod trees;

use std::io;

fn main(rt: HostRuntime) -> io::Result<()> {
    cases::limits(&rt)?;
    cases::nestings(&rt)?;
    cases::rows(&rt)?;
    cases::parts(&rt)?;
    cases::forms_and_ids(&rt)?;
    cases::names_and_counts(&rt)?;
    cases::shapes(&rt)?;
    cases::firsts(&rt)?;
    cases::early_pairs(&rt)?;
    cases::late_pairs(&rt)
}
