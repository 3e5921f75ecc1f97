// The chart: any rule table, with a mark for each state that is open.
ghost use Rattle.charts.specs.Accepting.{accepts};
ghost use Rattle.graphs.specs.Nodes.{has};
ghost use Rattle.tables.specs.Openness.{TellsRightly};
ghost use Rattle.std.specs.Prelude.{◌≡◌, ℕ};

use crate::backward::Backward;
use graphs::graph::Graph;
use graphs::nodes::NodeSet;
use graphs::search::Reached;
use tables::charted::Charted;
use tables::table::RuleTable;

// A rule table with the set of its open states, which is found once, at its making, and never changes.
#[derive(Drop)]
pub struct Chart<T> {
    table: T,
    open: NodeSet,
}

impl<T: RuleTable> Chart<T> {
    // Charts `table`: the chart tells rightly which states are open.
    pub fn new(table: T) -> Chart<T>
        ensures same { result.table ≡ table }
        ensures right { TellsRightly (T.meaning table) (has result.open) }
    {
        let accepting = accepting(&table);
        let open = Reached::search(&Backward::new(&table), &accepting).nodes();
        Chart { table, open }
    }

    // The table that is charted.
    pub fn table(&self) -> &T
        ensures { result.now ≡ self.now.table }
    {
        &self.table
    }
}

// Whether `state` is a state of the table, and accepts.
fn is_accepting<T: RuleTable>(table: &T, state: usize) -> bool
    ensures { result ≡ accepts (T.meaning table.now) state }
{
    table.label(state).is_some_and(|label| label != 0)
}

// The accepting states of a table.
fn accepting<T: RuleTable>(table: &T) -> NodeSet
    ensures { (s : ℕ) → has result s ≡ accepts (T.meaning table.now) s }
{
    let mut accepting = NodeSet::empty();
    for state in 0..table.states() {
        if is_accepting(table, state) {
            accepting.insert(state);
        }
    }
    accepting
}

impl<T: RuleTable> RuleTable for Chart<T> {
    ghost meaning = { λ c. T.RuleTable.meaning c.table };

    ghost sound = { λ c. T.RuleTable.sound c.table };

    fn states(&self) -> usize {
        self.table.states()
    }

    fn next(&self, state: usize, byte: u8) -> Option<usize> {
        self.table.next(state, byte)
    }

    fn label(&self, state: usize) -> Option<u8> {
        self.table.label(state)
    }
}

impl<T: RuleTable> Charted for Chart<T> {
    ghost marks = { λ c. has c.open };

    fn open(&self, state: usize) -> Option<bool> {
        (state < self.table.states()).then(|| self.open.contains(state))
    }
}
