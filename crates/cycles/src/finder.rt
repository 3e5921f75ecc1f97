// The finder: follows a path as long as it leads to new nodes, and goes back from a node whose slots are all asked.
ghost use Rattle.cycles.specs.Finding.{Finds, IsCycle, IsLongest};
ghost use Rattle.cycles.specs.Search.{Complete, Explored, Knows, Scanned, Sound, SoundIn, Turned, height_of, mark_of, rank, with_top};
ghost use Rattle.cycles.specs.declared.search.Mark.TheVariants.{New};
ghost use Rattle.std.specs.Prelude.{◌≡◌, ℕ, ◌<◌, ◌≤◌, [], MatchOption};

use crate::found::Found;
use crate::search::{Followed, Mark, Search, Told};
use arrayvec::ArrayVec;
use graphs::graph::{Graph, MAX_NODES};
use graphs::route::{Route, Step};

// The graph goes along beside the search as a parameter: as its field, each contract would have to say that it stays,
// and no contract would be shorter.

// Where the slots of a node lead on.
enum Next {
    // Nowhere: all are asked.
    Nowhere { told: Told },
    // By the next slot to a new node.
    On { told: Told, to: usize },
    // By this step back to the trail, at this place.
    Back { step: Step, place: usize },
}

// Asks the slots of `node` that are still to be asked, up to the first that leads to a node that is not done.
fn scan<G: Graph>(graph: &G, search: &Search, node: usize, known: Told) -> Next
    requires known { Knows (G.meaning graph.now) search.now.marks node known }
    requires low { (v : ℕ) → rank (mark_of search.now.marks v) ≤ 128 }
    requires few { (G.meaning graph.now).nodes ≤ 128 }
    ensures { Scanned (G.meaning graph.now) search.now.marks node result }
{
    let slots = graph.slots();
    let mut told = known;
    for slot in known.slot..slots {
        match graph.neighbour(node, slot) {
            None => told = told.skip(),
            Some(to) => match search.marks[to] {
                Mark::New => return Next::On { told, to },
                Mark::Active { place } => {
                    let step = Step { slot, to };
                    return Next::Back { step, place };
                }
                Mark::Done { told: beyond } => told = told.raise(to, beyond.height),
            },
        }
    }
    Next::Nowhere { told }
}

// Goes on from `top`, taken from the end of the trail, to a new node, or is done with it. Answers a cycle, if there
// is one.
fn turn<G: Graph>(graph: &G, search: &mut Search, top: Followed) -> Option<Route>
    requires { SoundIn (G.meaning graph.now) (with_top search.old top) }
    ensures { MatchOption result (Turned (G.meaning graph.now) (with_top search.old top) search.new) (IsCycle (G.meaning graph.now)) }
{
    let node = top.by.to;
    match scan(graph, search, node, top.told) {
        Next::Nowhere { told } => {
            search.marks[node] = Mark::Done { told };
            None
        }
        Next::On { told, to } => {
            search.trail.push(Followed { told, ..top });
            search.push(Step {
                slot: told.slot,
                to,
            });
            None
        }
        Next::Back { step, place } => {
            search.trail.push(top);
            Some(search.cycle(node, step, place))
        }
    }
}

// Follows every path from `root`, a new node. Answers a cycle, if there is one.
fn explore<G: Graph>(graph: &G, search: &mut Search, root: usize) -> Option<Route>
    requires sound { SoundIn (G.meaning graph.now) search.old }
    requires none { search.old.trail.items ≡ [] }
    requires root { root < (G.meaning graph.now).nodes }
    requires reached { mark_of search.old.marks root ≡ New }
    ensures { MatchOption result (Explored (G.meaning graph.now) root search.old search.new) (IsCycle (G.meaning graph.now)) }
{
    search.push(Step { slot: 0, to: root });
    while let Some(top) = search.trail.pop() {
        if let Some(cycle) = turn(graph, search, top) {
            return Some(cycle);
        }
    }
    None
}

// A node from which the longest path is no shorter than from any other.
fn tallest<G: Graph>(graph: &G, search: &Search) -> usize
    ensures inside { result < (G.meaning graph.now).nodes }
    ensures most { (v : ℕ) → v < (G.meaning graph.now).nodes → height_of (mark_of search.now.marks v) ≤ height_of (mark_of search.now.marks result) }
{
    let mut best = 0;
    for node in 1..graph.nodes() {
        if search.height(best) < search.height(node) {
            best = node;
        }
    }
    best
}

// The longest path, where every node is done.
fn longest<G: Graph>(graph: &G, search: &Search) -> Route
    requires { Complete (G.meaning graph.now) search.now.marks }
    ensures { IsLongest (G.meaning graph.now) result }
{
    let start = tallest(graph, search);
    let mut steps = ArrayVec::<Step, MAX_NODES>::new();
    let mut node = start;
    while let Some(step) = search.first(node) {
        steps.push(step);
        node = step.to;
    }
    Route::new(start, steps.as_slice()).unwrap()
}

// A cycle of the graph, or a longest path, where there is no cycle. Each slot of a node is asked at most twice.
pub fn find<G: Graph>(graph: &G) -> Found
    ensures { Finds (G.meaning graph.now) result }
{
    let mut search = Search::new();
    for root in 0..graph.nodes() {
        if let Mark::New = search.marks[root] {
            if let Some(cycle) = explore(graph, &mut search, root) {
                return Found::Cycle(cycle);
            }
        }
    }
    Found::Longest(longest(graph, &search))
}
