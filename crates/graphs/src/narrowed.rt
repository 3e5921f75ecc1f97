// A graph with some of the edges of another.
ghost use Rattle.graphs.specs.Narrowed.{narrowed};
ghost use Rattle.graphs.specs.Nodes.{has};
ghost use Rattle.std.specs.Prelude.{◌≡◌};

use crate::graph::Graph;
use crate::nodes::NodeSet;

// The edges of a graph that lead from one set of nodes into another.
#[derive(Drop)]
pub struct Narrowed<'g, G> {
    graph: &'g G,
    from: NodeSet,
    into: NodeSet,
}

impl<'g, G: Graph> Narrowed<'g, G> {
    // Just the edges of `graph` from the nodes of `from` into the nodes of `into`.
    pub fn new(graph: &'g G, from: NodeSet, into: NodeSet) -> Narrowed<'g, G>
        ensures { (result.graph.now ≡ graph.now) × (result.from ≡ from) × (result.into ≡ into) }
    {
        Narrowed { graph, from, into }
    }
}

impl<'g, G: Graph> Graph for Narrowed<'g, G> {
    ghost meaning = { λ n. narrowed (G.Graph.meaning n.graph.now) (has n.from) (has n.into) };

    fn nodes(&self) -> usize {
        self.graph.nodes()
    }

    fn slots(&self) -> usize {
        self.graph.slots()
    }

    fn neighbour(&self, node: usize, slot: usize) -> Option<usize> {
        if !self.from.contains(node) {
            return None;
        }
        let to = self.graph.neighbour(node, slot)?;
        self.into.contains(to).then_some(to)
    }
}
