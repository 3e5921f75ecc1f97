// Sets of nodes.
ghost use Rattle.graphs.specs.Nodes.{Adds, Empty, has};
ghost use Rattle.std.specs.Prelude.{◌≡◌};

use crate::graph::MAX_NODES;

// A set of nodes.
#[derive(Clone, Copy)]
pub struct NodeSet {
    members: [bool; MAX_NODES],
}

impl NodeSet {
    // The set of no node.
    pub fn empty() -> NodeSet
        ensures { Empty result }
    {
        NodeSet {
            members: [false; MAX_NODES],
        }
    }

    // Whether `node` is in the set.
    pub fn contains(&self, node: usize) -> bool
        ensures { result ≡ has self.now node }
    {
        self.members.get(node).copied().unwrap_or(false)
    }

    // Puts `node` into the set. A number that no graph has as a node is passed over.
    pub fn insert(&mut self, node: usize)
        ensures { Adds self.old node self.new }
    {
        if node < MAX_NODES {
            self.members[node] = true;
        }
    }
}
