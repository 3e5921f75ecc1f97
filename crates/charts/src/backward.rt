// The backward graph of a rule table.
ghost use Rattle.charts.specs.Slots.{backward};
ghost use Rattle.std.specs.Prelude.{◌≡◌};

use crate::slots::{BYTES, byte_of};
use graphs::graph::Graph;
use tables::table::RuleTable;

// A type of its own beside the forward graph: they share a reference to a table, and tell nothing alike but its states.

// The graph whose nodes are the states of a table and whose edges go against its steps: slot 256 · p + b leads
// from q to p if the next state of p on byte b is q.
#[derive(Drop)]
pub struct Backward<'t, T> {
    table: &'t T,
}

impl<'t, T: RuleTable> Backward<'t, T> {
    // The backward graph of `table`.
    pub fn new(table: &'t T) -> Backward<'t, T>
        ensures { result.table.now ≡ table.now }
    {
        Backward { table }
    }
}

impl<'t, T: RuleTable> Graph for Backward<'t, T> {
    ghost meaning = { λ g. backward (T.RuleTable.meaning g.table.now) };

    fn nodes(&self) -> usize {
        self.table.states()
    }

    fn slots(&self) -> usize {
        BYTES * self.table.states()
    }

    fn neighbour(&self, node: usize, slot: usize) -> Option<usize> {
        let state = slot / BYTES;
        (self.table.next(state, byte_of(slot)) == Some(node)).then_some(state)
    }
}
