// The finder: in every graph a cycle, or a longest path where there is no cycle.
#![tactic(auto)]

pub mod finder;
pub mod found;
mod search;
