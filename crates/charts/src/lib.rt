// The graphs of rule tables, and the chart, which tells which states of a table are open.
#![tactic(auto)]

pub mod backward;
pub mod chart;
pub mod forward;
pub mod slots;
