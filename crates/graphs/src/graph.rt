// What every graph tells.
ghost use Rattle.graphs.specs.Graph.{Edges, Inside, tells};
ghost use Rattle.std.specs.Prelude.{◌≡◌, ◌≤◌};

// The most nodes of a graph.
pub const MAX_NODES: usize = 128;

// A graph: 1 to 128 nodes, numbered from 0, and for each node as many slots, each of which leads to a neighbour
// or nowhere. Asking changes nothing, and the answers don't vary: they are those of the graph's meaning.
pub trait Graph {
    ghost meaning: { Self → Edges };

    // The number of nodes.
    fn nodes(&self) -> usize
        ensures value { result ≡ (meaning self.now).nodes }
        ensures some { 1 ≤ result }
        ensures few { result ≤ 128 };

    // The number of slots of each node.
    fn slots(&self) -> usize
        ensures { result ≡ (meaning self.now).slots };

    // The node that a slot of `node` leads to, or `None` where it leads nowhere or there is no such node or slot.
    fn neighbour(&self, node: usize, slot: usize) -> Option<usize>
        ensures value { result ≡ tells (meaning self.now) node slot }
        ensures inside { Inside (meaning self.now) result };
}
