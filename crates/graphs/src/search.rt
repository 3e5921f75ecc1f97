// The search: which nodes of a graph are reached from given ones, and by which path.
ghost use Rattle.graphs.specs.Arrivals.{steps_to};
ghost use Rattle.std.specs.Prelude.{◌≡◌, ℕ, ◌≤◌, length};

use crate::arrival::Arrival;
use crate::graph::MAX_NODES;

mod growing;
mod routes;

// What a search found: the nodes at the end of a path of one or more edges from the given nodes.
#[derive(Clone, Copy)]
pub struct Reached {
    arrivals: [Option<Arrival>; MAX_NODES],
    ghost long: { length arrivals ≡ 128 },
    ghost few: { (k : ℕ) → steps_to arrivals k ≤ 128 },
}
