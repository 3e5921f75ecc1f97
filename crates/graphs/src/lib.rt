// Graphs of at most 128 nodes: what every graph tells, and the search over every graph.
#![tactic(auto)]

mod arrival;
pub mod graph;
pub mod narrowed;
pub mod nodes;
pub mod route;
pub mod search;
pub mod text;
