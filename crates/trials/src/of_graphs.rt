// Graphs and charts: the graphs of a small table, the search, the finder, and how often they ask.
ghost use Rattle.std.specs.Prelude.{◌+◌, ◌-◌, ◌/◌, if◌then◌else◌, Some, None, nat_eq, nat_lt};

use charts::backward::Backward;
use charts::chart::Chart;
use charts::forward::Forward;
use charts::slots::byte_of;
use cycles::finder::find;
use graphs::graph::Graph;
use graphs::narrowed::Narrowed;
use graphs::nodes::NodeSet;
use graphs::route::Step;
use graphs::search::Reached;
use images::loaded::LoadedTable;
use std::alloc::{AllocError, Global};
use std::cell::Cell;
use std::test::Fail;
use tables::charted::Charted;
use tables::share::ShareTable;
use tables::table::RuleTable;

// The next states of the table below, by classes: any other byte, `a`, `b`, `c`.
const NEXT_STATES: [u8; 20] = [4, 1, 4, 4, 4, 4, 2, 3, 4, 4, 2, 3, 4, 4, 4, 4, 4, 4, 4, 4];

// Rule 1 is `a`, and rule 2 is `a`, any number of `b`, and `c`. State 4 leads nowhere else.
fn a_bs_c() -> Result<LoadedTable, Fail> {
    let mut image = [0; 287];
    image[0] = 1;
    image[2 + 97] = 1;
    image[2 + 98] = 2;
    image[2 + 99] = 3;
    image[259] = 5;
    image[261] = 1;
    image[263] = 2;
    image[266] = 20;
    image[267..287].copy_from_slice(&NEXT_STATES);
    let mut table = LoadedTable::empty();
    table.load(&image)?;
    Ok(table)
}

// A set of some nodes.
fn set_of(nodes: &[usize]) -> NodeSet {
    let mut set = NodeSet::empty();
    for node in nodes {
        set.insert(*node);
    }
    set
}

#[test]
fn graphs_of_a_table(rt: HostRuntime) -> Result<(), Fail> {
    let table = a_bs_c()?;
    let forward = Forward::new(&table);
    assert_eq!(rt; (forward.nodes(), forward.slots()), (5, 256));
    assert_eq!(rt; forward.neighbour(0, 97), Some(1));
    assert_eq!(rt; forward.neighbour(1, 98), Some(2));
    assert_eq!(rt; forward.neighbour(1, 255), Some(4));
    assert_eq!(rt; forward.neighbour(1, 256), None);
    assert_eq!(rt; forward.neighbour(5, 98), None);
    let backward = Backward::new(&table);
    assert_eq!(rt; (backward.nodes(), backward.slots()), (5, 1280));
    assert_eq!(rt; backward.neighbour(1, 97), Some(0));
    assert_eq!(rt; backward.neighbour(2, 256 + 98), Some(1));
    assert_eq!(rt; backward.neighbour(2, 512 + 98), Some(2));
    assert_eq!(rt; backward.neighbour(2, 512 + 99), None);
    assert_eq!(rt; backward.neighbour(4, 1280), None);
    assert_eq!(rt; (byte_of(98), byte_of(512 + 99)), (98, 99));
    let narrowed = Narrowed::new(&forward, set_of(&[1, 2]), set_of(&[2, 200]));
    assert_eq!(rt; (narrowed.nodes(), narrowed.slots()), (5, 256));
    assert_eq!(rt; narrowed.neighbour(1, 98), Some(2));
    assert_eq!(rt; narrowed.neighbour(1, 99), None);
    assert_eq!(rt; narrowed.neighbour(0, 97), None);
    Ok(())
}

#[test]
fn paths_and_cycles(rt: HostRuntime) -> Result<(), Fail> {
    let table = a_bs_c()?;
    let forward = Forward::new(&table);
    let reached = Reached::search(&forward, &set_of(&[0]));
    for node in 0..6 {
        assert_eq!(rt; reached.contains(node), 1 <= node && node <= 4);
    }
    let Some(route) = reached.route_to(3) else {
        return Err(Fail::new("no path"));
    };
    assert_eq!(rt; route.start(), 0);
    assert!(rt; route.steps() == [Step { slot: 97, to: 1 }, Step { slot: 99, to: 3 }].as_slice());
    assert!(rt; reached.route_to(0).is_none() && reached.route_to(128).is_none());
    // among states 1 and 2 there is a cycle, and from state 0 to state 3 there is a longest path
    let looping = find(&Narrowed::new(&forward, set_of(&[1, 2]), set_of(&[2])));
    assert!(rt; looping.is_cycle());
    assert!(rt; looping.route().steps() == [Step { slot: 98, to: 2 }].as_slice());
    let straight = find(&Narrowed::new(&forward, set_of(&[0, 1]), set_of(&[1, 3])));
    assert!(rt; !straight.is_cycle());
    assert!(rt; straight.route().start() == 0);
    assert!(rt;
        straight.route().steps() == [Step { slot: 97, to: 1 }, Step { slot: 99, to: 3 }].as_slice()
    );
    let edgeless = find(&Narrowed::new(&forward, NodeSet::empty(), NodeSet::empty()));
    assert!(rt; !edgeless.is_cycle() && edgeless.route().steps().is_empty());
    Ok(())
}

#[test]
fn charts(rt: HostRuntime) -> Result<(), Fail> {
    let chart = Chart::new(ShareTable);
    for state in 0..12 {
        assert_eq!(rt; chart.open(state), ShareTable.open(state));
        assert_eq!(rt; chart.label(state), ShareTable.label(state));
        assert_eq!(rt; chart.next(state, b'5'), ShareTable.next(state, b'5'));
    }
    let chart = Chart::new(a_bs_c()?);
    let told = [
        Some(true),
        Some(true),
        Some(true),
        Some(false),
        Some(false),
        None,
    ];
    for (state, open) in told.iter().enumerate() {
        assert_eq!(rt; chart.open(state), *open);
    }
    assert_eq!(rt; chart.table().states(), 5);
    Ok(())
}

// A path of 128 nodes, up or down: of the four slots of a node the last leads on.
#[derive(Drop)]
struct Line {
    up: bool,
}

impl Graph for Line {
    ghost meaning = { λ g. record { nodes = 128; slots = 4; neighbour = λ a s. (if nat_eq s 3 then (if g.up then (if nat_lt (a + 1) 128 then Some (a + 1) else None) else (if nat_lt 0 a then Some (a - 1) else None)) else None) } };

    fn nodes(&self) -> usize {
        128
    }

    fn slots(&self) -> usize {
        4
    }

    fn neighbour(&self, node: usize, slot: usize) -> Option<usize> {
        if slot != 3 || node >= 128 {
            return None;
        }
        if self.up {
            if node + 1 < 128 { Some(node + 1) } else { None }
        } else if node > 0 {
            Some(node - 1)
        } else {
            None
        }
    }
}

// Points with no edge, at most 128 since their number is told by a byte. Of a number that is no byte that would not hold.
#[derive(Drop)]
struct Points {
    twice: u8,
}

impl Graph for Points {
    ghost meaning = { λ g. record { nodes = g.twice / 2 + 1; slots = 1; neighbour = λ a s. None } };

    fn nodes(&self) -> usize {
        self.twice as usize / 2 + 1
    }

    fn slots(&self) -> usize {
        1
    }

    fn neighbour(&self, _node: usize, _slot: usize) -> Option<usize> {
        None
    }
}

#[test]
fn a_graph_kept_small_by_a_byte(rt: HostRuntime) -> Result<(), Fail> {
    let points = Points { twice: 255 };
    assert_eq!(rt; points.nodes(), 128);
    let narrowed = Narrowed::new(&points, set_of(&[0, 127]), set_of(&[127]));
    assert!(rt; !Reached::search(&narrowed, &set_of(&[127])).contains(127));
    let found = find(&narrowed);
    assert!(rt; !found.is_cycle() && found.route().steps().is_empty());
    Ok(())
}

// A graph that counts how often each slot of each node is asked.
#[derive(Drop)]
struct Counting<'g, G> {
    graph: &'g G,
    asked: &'g [Cell<u8>],
}

impl<'g, G: Graph> Graph for Counting<'g, G> {
    ghost meaning = { λ c. G.Graph.meaning c.graph.now };

    fn nodes(&self) -> usize {
        self.graph.nodes()
    }

    fn slots(&self) -> usize {
        self.graph.slots()
    }

    fn neighbour(&self, node: usize, slot: usize) -> Option<usize> {
        let pair = node.wrapping_mul(self.graph.slots()).wrapping_add(slot);
        if let Some(count) = self.asked.get(pair) {
            count.set(count.get().saturating_add(1));
        }
        self.graph.neighbour(node, slot)
    }
}

// As many counters, all at 0.
fn counters(heap: Global, count: usize) -> Result<Vec<Cell<u8>>, AllocError> {
    let mut counters = Vec::new(heap);
    for _ in 0..count {
        counters.push(Cell::new(0))?;
    }
    Ok(counters)
}

// The most that was counted.
fn most(counters: &[Cell<u8>]) -> u8 {
    counters
        .iter()
        .map(|counter| counter.get())
        .max()
        .unwrap_or(0)
}

#[test]
fn asks_each_slot_at_most_twice(rt: HostRuntime) -> Result<(), Fail> {
    for up in [true, false] {
        let line = Line { up };
        let (first, last) = if up { (0, 127) } else { (127, 0) };
        let searched = counters(rt.alloc(), 512)?;
        let graph = Counting {
            graph: &line,
            asked: searched.as_slice(),
        };
        let reached = Reached::search(&graph, &set_of(&[first]));
        let Some(route) = reached.route_to(last) else {
            return Err(Fail::new("no path"));
        };
        assert_eq!(rt; (route.start(), route.steps().len()), (first, 127));
        assert_eq!(rt; most(searched.as_slice()), 1);
        let found = counters(rt.alloc(), 512)?;
        let longest = find(&Counting {
            graph: &line,
            asked: found.as_slice(),
        });
        assert!(rt; !longest.is_cycle());
        assert_eq!(rt; longest.route().steps().len(), 127);
        assert!(rt; most(found.as_slice()) <= 2);
    }
    Ok(())
}

// The image of a table of 128 states, from each of which every byte leads up, or down, to the one beside it.
// The last one accepts, and leads back to itself.
fn line_image(up: bool) -> [u8; 518] {
    let mut image = [0; 518];
    image[0] = 1;
    image[259] = 128;
    image[if up { 387 } else { 260 }] = 1;
    image[389] = 128;
    for (step, state) in image[390..].iter_mut().zip(0..128u8) {
        *step = if up {
            state.saturating_add(1).min(127)
        } else {
            state.saturating_sub(1)
        };
    }
    image
}

// The search that a chart makes: from the accepting states of a line of 128 states, in its backward graph.
#[test]
fn charts_ask_each_slot_once(rt: HostRuntime) -> Result<(), Fail> {
    for up in [true, false] {
        let mut table = LoadedTable::empty();
        table.load(&line_image(up))?;
        let backward = Backward::new(&table);
        let asked = counters(rt.alloc(), 128 * 256 * 128)?;
        let graph = Counting {
            graph: &backward,
            asked: asked.as_slice(),
        };
        let reached = Reached::search(&graph, &set_of(&[if up { 127 } else { 0 }]));
        assert_eq!(rt; most(asked.as_slice()), 1);
        let chart = Chart::new(table);
        for state in 0..128 {
            assert_eq!(rt; reached.contains(state), true);
            assert_eq!(rt; chart.open(state), Some(true));
        }
    }
    Ok(())
}
