// What a search found: the marks, and a path to each marked node.
ghost use Rattle.graphs.specs.Arrivals.{Traced, arrival_at};
ghost use Rattle.graphs.specs.Graph.{Edges};
ghost use Rattle.graphs.specs.Nodes.{has};
ghost use Rattle.graphs.specs.Searching.{RouteTo, reached};
ghost use Rattle.std.specs.Prelude.{◌≡◌, ℕ, Bool, is_some};

use crate::arrival::Arrival;
use crate::graph::MAX_NODES;
use crate::nodes::NodeSet;
use crate::route::{Route, Step};
use crate::search::Reached;

impl Reached {
    // Whether `node` is at the end of a path of one or more edges from the given nodes.
    pub fn contains(&self, node: usize) -> bool
        ensures { result ≡ reached self.now node }
    {
        self.arrival(node).is_some()
    }

    // The set of the marked nodes.
    pub fn nodes(&self) -> NodeSet
        ensures { (k : ℕ) → has result k ≡ reached self.now k }
    {
        // Marked one by one: the notes mapped, as an array, would be copied whole for it.
        let mut nodes = NodeSet::empty();
        for node in 0..MAX_NODES {
            if self.contains(node) {
                nodes.insert(node);
            }
        }
        nodes
    }

    // How the search came to `node`, or `None` where it did not.
    pub(super) fn arrival(&self, node: usize) -> Option<Arrival>
        ensures { result ≡ arrival_at self.now.arrivals node }
    {
        self.arrivals.get(node).copied().flatten()
    }

    // A path to `node` from one of the given nodes, of one edge or more and at most as many as there are nodes,
    // or `None` where there is no path.
    pub fn route_to(&self, node: usize) -> Option<Route>
        ensures { (g : Edges) (given : ℕ → Bool) → Traced g given self.now.arrivals → RouteTo g given self.now node result }
    {
        let last = self.arrival(node)?;
        let length = last.steps;
        let mut steps = [Step { slot: 0, to: 0 }; MAX_NODES];
        let mut at = node;
        // By index: of what a reversed `iter_mut` has written, no invariant can speak.
        for i in (0..length).rev() {
            let arrival = self.arrival(at)?;
            steps[i] = Step {
                slot: arrival.slot,
                to: at,
            };
            at = arrival.from;
        }
        Some(Route {
            start: at,
            steps,
            length,
        })
    }
}
