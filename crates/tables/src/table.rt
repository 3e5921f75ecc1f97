// What every rule table tells, and what its answers mean.
ghost use Rattle.tables.specs.Table.{Table, Sound, tells_next, tells_label};
ghost use Rattle.std.specs.Prelude.{◌≡◌};

// A rule table: an automaton with 1 to 128 states, numbered from 0. State 0 is the start.
// Every state has one next state for each byte, and a label: 0 where it does not accept,
// and otherwise the rule that it accepts. A label is a byte and no Option, as in the images that tables come in.
// Asking changes nothing, and the answers don't vary: they are those of the table's meaning.
pub trait RuleTable {
    ghost meaning: { Self → Table };

    // The number of states.
    fn states(&self) -> usize
        ensures { result ≡ (meaning self.now).states };

    // The state that `byte` leads to from `state`, or `None` where the table has no such state.
    fn next(&self, state: usize, byte: u8) -> Option<usize>
        ensures { result ≡ tells_next (meaning self.now) state byte };

    // The label of `state`, or `None` where the table has no such state.
    fn label(&self, state: usize) -> Option<u8>
        ensures { result ≡ tells_label (meaning self.now) state };

    ghost sound: { (t : Self) → Sound (meaning t) };
}
