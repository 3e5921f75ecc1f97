// Maximal munch, settling, lateness and reach: what they mean, the laws about them, examples, and munch in code.
#![tactic(auto)]

pub mod examples;
pub mod laws;
pub mod plain;
pub mod reach_laws;
