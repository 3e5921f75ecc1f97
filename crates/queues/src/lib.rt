// Queues over memory that the caller lends: the ring and the straight queue, under one trait.
#![tactic(auto)]

pub mod laws;
mod memory;
pub mod queue;
pub mod refusals;
pub mod ring;
pub mod straight;
