// The notes of the search: what is known of each node, and the trail of nodes that are followed.
ghost use Rattle.graphs.specs.Routes.{steps_of};
ghost use Rattle.cycles.specs.Search.{Fresh, first_of, height_of, known_of, mark_of, pushed, raised, skipped, turned};
ghost use Rattle.std.specs.Prelude.{◌≡◌, ◌+◌, ◌^◌, ◌<◌, length};

use arrayvec::ArrayVec;
use graphs::graph::MAX_NODES;
use graphs::route::{Route, Step};

// What the slots of a node told that were asked, those before `slot`: the longest path from the node that begins
// with one of them has `height` edges, and the step `first` begins it, if it has any.
#[derive(Clone, Copy, Default)]
pub(crate) struct Told {
    pub(crate) slot: usize,
    pub(crate) height: usize,
    pub(crate) first: Option<Step>,
}

// How far the search is at a node.
#[derive(Clone, Copy)]
pub(crate) enum Mark {
    // It was not reached.
    New,
    // It is on the trail, at this place.
    Active { place: usize },
    // All its slots were asked, and each leads nowhere or to a node that is done.
    Done { told: Told },
}

// A node of the trail: the step that led to it, and what its slots told. To the first none led, and only its node counts:
// a step that may be none would be asked for at every other, where there is one.
#[derive(Clone, Copy, Default)]
pub(crate) struct Followed {
    pub(crate) by: Step,
    pub(crate) told: Told,
}

// The search.
#[derive(Drop)]
pub(crate) struct Search {
    // The mark of each node.
    pub(crate) marks: [Mark; MAX_NODES],
    // The nodes that are followed.
    pub(crate) trail: ArrayVec<Followed, MAX_NODES>,
}

impl Told {
    // What is told with the next slot too, which leads nowhere.
    pub(crate) fn skip(self) -> Told
        requires { self.slot + 1 < 2 ^ 64 }
        ensures { result ≡ skipped self }
    {
        Told {
            slot: self.slot + 1,
            ..self
        }
    }

    // What is told with the next slot too, which leads to the node `to`. The longest path from there has `height`
    // edges.
    pub(crate) fn raise(self, to: usize, height: usize) -> Told
        requires slot { self.slot + 1 < 2 ^ 64 }
        requires low { height < 128 }
        ensures { result ≡ raised self to height }
    {
        if height < self.height {
            return self.skip();
        }
        Told {
            slot: self.slot + 1,
            height: height + 1,
            first: Some(Step {
                slot: self.slot,
                to,
            }),
        }
    }
}

impl Search {
    // A search that has not begun.
    pub(crate) fn new() -> Search
        ensures { Fresh result }
    {
        Search {
            marks: [Mark::New; MAX_NODES],
            trail: ArrayVec::new(),
        }
    }

    // What the slots of a node told, if it is done.
    pub(crate) fn known(&self, node: usize) -> Option<Told>
        ensures { result ≡ known_of (mark_of self.now.marks node) }
    {
        match self.marks.get(node) {
            Some(Mark::Done { told }) => Some(*told),
            _ => None,
        }
    }

    // How many edges the longest path from a node has that is done, and else 0.
    pub(crate) fn height(&self, node: usize) -> usize
        ensures { result ≡ height_of (mark_of self.now.marks node) }
    {
        self.known(node).map_or(0, |told| told.height)
    }

    // The step that begins a longest path from a node that is done, if the path has an edge.
    pub(crate) fn first(&self, node: usize) -> Option<Step>
        ensures { result ≡ first_of (mark_of self.now.marks node) }
    {
        self.known(node)?.first
    }

    // Goes on to the new node that a step leads to.
    pub(crate) fn push(&mut self, step: Step)
        requires node { step.to < 128 }
        requires room { length self.old.trail.items < 128 }
        ensures { self.new ≡ pushed self.old step }
    {
        let place = self.trail.len();
        self.marks[step.to] = Mark::Active { place };
        self.trail.push(Followed {
            by: step,
            told: Told::default(),
        });
    }

    // The cycle from the last node of the trail, `node`, by `step` to the node at `place` of the trail, and along the
    // trail back to the last.
    pub(crate) fn cycle(&self, node: usize, step: Step, place: usize) -> Route
        requires { place < length self.now.trail.items }
        ensures start { result.start ≡ node }
        ensures steps { steps_of result ≡ turned self.now.trail.items step place }
    {
        let mut steps = ArrayVec::<Step, MAX_NODES>::new();
        steps.push(step);
        for followed in &self.trail.as_slice()[place + 1..] {
            steps.push(followed.by);
        }
        Route::new(node, steps.as_slice()).unwrap()
    }
}
