// Paths in a graph.
ghost use Rattle.std.specs.Prelude.{◌≡◌, ◌<◌, ◌≤◌, length, MatchOption};

use crate::graph::MAX_NODES;

// A step along an edge: the slot that is taken, and the node that it leads to.
#[derive(Clone, Copy, PartialEq, Eq, Debug, Default)]
pub struct Step {
    pub slot: usize,
    pub to: usize,
}

// A path: the node where it starts, and its steps, at most 128.
// An array with a length beside: the library allocates nothing, and a path can be copied.
#[derive(Clone, Copy, PartialEq, Eq, Debug)]
pub struct Route {
    pub(crate) start: usize,
    pub(crate) steps: [Step; MAX_NODES],
    pub(crate) length: usize,
    ghost few: { length ≤ 128 },
}

impl Route {
    ghost use Rattle.graphs.specs.Routes.{steps_of};

    // The path from `start` by `steps`, or `None` where these are more than 128.
    pub fn new(start: usize, steps: &[Step]) -> Option<Route>
        ensures { MatchOption result (128 < length steps.now) (λ p. (p.start ≡ start) × (steps_of p ≡ steps.now)) }
    {
        let length = steps.len();
        if length > MAX_NODES {
            return None;
        }
        let mut copied = [Step { slot: 0, to: 0 }; MAX_NODES];
        copied[0..length].copy_from_slice(steps);
        Some(Route {
            start,
            steps: copied,
            length,
        })
    }

    // The node where the path starts.
    pub fn start(&self) -> usize
        ensures { result ≡ self.now.start }
    {
        self.start
    }

    // The steps of the path.
    pub fn steps(&self) -> &[Step]
        ensures { result.now ≡ steps_of self.now }
    {
        &self.steps[0..self.length]
    }
}
