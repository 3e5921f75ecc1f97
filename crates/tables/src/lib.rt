// Rule tables: what every table tells, which states are open, and the share table.
#![tactic(auto)]

pub mod charted;
pub mod kinds;
pub mod laws;
pub mod share;
pub mod table;
