// The forward graph of a rule table.
ghost use Rattle.charts.specs.Slots.{forward};
ghost use Rattle.std.specs.Prelude.{◌≡◌};

use crate::slots::{BYTES, byte_of};
use graphs::graph::Graph;
use tables::table::RuleTable;

// The graph whose nodes are the states of a table: slot b of a state leads to its next state on byte b.
#[derive(Drop)]
pub struct Forward<'t, T> {
    table: &'t T,
}

impl<'t, T: RuleTable> Forward<'t, T> {
    // The forward graph of `table`.
    pub fn new(table: &'t T) -> Forward<'t, T>
        ensures { result.table.now ≡ table.now }
    {
        Forward { table }
    }
}

impl<'t, T: RuleTable> Graph for Forward<'t, T> {
    ghost meaning = { λ g. forward (T.RuleTable.meaning g.table.now) };

    fn nodes(&self) -> usize {
        self.table.states()
    }

    fn slots(&self) -> usize {
        BYTES
    }

    fn neighbour(&self, node: usize, slot: usize) -> Option<usize> {
        if slot < BYTES {
            self.table.next(node, byte_of(slot))
        } else {
            None
        }
    }
}
