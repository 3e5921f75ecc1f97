// How a search came to a node.

// How a node was first reached: by a slot of the node before it, at the end of so many steps.
#[derive(Clone, Copy)]
pub(crate) struct Arrival {
    pub(crate) from: usize,
    pub(crate) slot: usize,
    pub(crate) steps: usize,
}
