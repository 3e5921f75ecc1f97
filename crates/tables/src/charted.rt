// Rule tables that also tell which of their states are open.
ghost use Rattle.tables.specs.Openness.{MeansOpen, TellsRightly, tells_open};
ghost use Rattle.std.specs.Prelude.{◌≡◌, ℕ, Bool};

use crate::table::RuleTable;

// A charted table: a rule table that also tells of each state whether it is open, that is, whether some word
// of at least one byte leads from it to an accepting state. A state that is not open is closed.
// Nothing forces a charted table to tell rightly: that is a premise wherever something is said of open states.
pub trait Charted: RuleTable {
    ghost marks: { Self → ℕ → Bool };

    // Whether `state` is open, as the table tells it, or `None` where the table has no such state.
    fn open(&self, state: usize) -> Option<bool>
        ensures told { result ≡ tells_open (Self.RuleTable.meaning self.now) (marks self.now) state }
        ensures means { TellsRightly (Self.RuleTable.meaning self.now) (marks self.now) → MeansOpen (Self.RuleTable.meaning self.now) state result };
}
