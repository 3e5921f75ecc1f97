// How a search grows: node after node, each slot of a node asked once.
ghost use Rattle.graphs.specs.Arrivals.{noted, reached_at, steps_to};
ghost use Rattle.graphs.specs.Nodes.{has};
ghost use Rattle.graphs.specs.Searching.{Expanded, Grown, Known, Pending, Searched};
ghost use Rattle.std.specs.Prelude.{◌≡◌, ◌<◌, ◌≤◌, false, replicate, None};

use crate::arrival::Arrival;
use crate::graph::{Graph, MAX_NODES};
use crate::nodes::NodeSet;
use crate::search::Reached;

// The graph and the given nodes go along as parameters: as fields of what changes, each contract would have to say that
// they stay, and a struct of the two alone would save none, as what changes goes along too.

impl Reached {
    // Marks the nodes at the end of a path of one or more edges of `graph` from the nodes of `starts`.
    // Each slot of a node is asked at most once.
    pub fn search<G: Graph>(graph: &G, starts: &NodeSet) -> Reached
        ensures { Searched (G.meaning graph.now) (has starts.now) result }
    {
        let nodes = graph.nodes();
        let mut reached = Reached::none();
        let mut expanded = NodeSet::empty();
        while let Some(node) = reached.pending(starts, &expanded, nodes) {
            reached.expand(graph, starts, node);
            expanded.insert(node);
        }
        reached
    }

    // No node is reached yet.
    fn none() -> Reached
        ensures { result.arrivals ≡ replicate 128 None }
    {
        Reached {
            arrivals: [None; MAX_NODES],
        }
    }

    // A node below `nodes` that is given or reached, and whose slots were not yet asked.
    fn pending(&self, starts: &NodeSet, expanded: &NodeSet, nodes: usize) -> Option<usize>
        ensures { Pending (has starts.now) self.now.arrivals (has expanded.now) nodes result }
    {
        (0..nodes).find(|node| {
            let known = starts.contains(*node) || self.contains(*node);
            known && !expanded.contains(*node)
        })
    }

    // Marks the neighbours of `node`, which is given or reached.
    fn expand<G: Graph>(&mut self, graph: &G, starts: &NodeSet, node: usize)
        requires known { Known (has starts.now) self.old.arrivals node }
        requires few { (G.meaning graph.now).nodes ≤ 128 }
        requires grown { Grown (G.meaning graph.now) (has starts.now) self.old.arrivals }
        ensures { Expanded (G.meaning graph.now) (has starts.now) node self.old.arrivals self.new.arrivals }
    {
        let steps = if starts.contains(node) {
            0
        } else {
            self.steps_to(node)
        };
        for slot in 0..graph.slots() {
            if let Some(to) = graph.neighbour(node, slot) {
                self.note(
                    to,
                    Arrival {
                        from: node,
                        slot,
                        steps: steps + 1,
                    },
                );
            }
        }
    }

    // Notes an arrival at `node`, if it is the first.
    fn note(&mut self, node: usize, arrival: Arrival)
        requires inside { node < 128 }
        requires few { reached_at self.old.arrivals node ≡ false → arrival.steps ≤ 128 }
        ensures { self.new.arrivals ≡ noted self.old.arrivals node arrival }
    {
        if self.arrivals[node].is_none() {
            self.arrivals[node] = Some(arrival);
        }
    }

    // How many steps lead to `node`, and 0 where it is not reached.
    fn steps_to(&self, node: usize) -> usize
        ensures { result ≡ steps_to self.now.arrivals node }
    {
        self.arrival(node).map_or(0, |arrival| arrival.steps)
    }
}
