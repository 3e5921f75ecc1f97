// The share table: the tokens of a list of motors and their shares of current.
ghost use Rattle.tables.specs.Share.{goes, labels, share_marks, share_table, steps};
ghost use Rattle.tables.specs.ShareSound.{share_table_is_sound};
ghost use Rattle.std.specs.Prelude.{◌≡◌, slice_index};

use crate::charted::Charted;
use crate::kinds::Kind;
use crate::table::RuleTable;

// States are numbers, as in every rule table, and so are rules.

// The number of states.
const STATES: usize = 11;

// From this state on no token can grow: states 7 to 9 end one, and 10 leads nowhere else.
const CLOSED: usize = 7;

// The state that a byte of kind `kind` leads to from `state`.
fn step(state: usize, kind: Kind) -> usize
    ensures { result ≡ goes state kind steps }
{
    match (state, kind) {
        (0 | 1, Kind::Digit) => 1,
        (0, Kind::Letter) => 4,
        (0, Kind::Blank) => 5,
        (0, Kind::CarriageReturn) => 6,
        (0, Kind::LineFeed) => 7,
        (0, Kind::Percent) => 8,
        (0, Kind::Point) => 9,
        (1, Kind::Point) => 2,
        (2..=3, Kind::Digit) => 3,
        (4, Kind::Letter | Kind::Digit) => 4,
        (5, Kind::Blank) => 5,
        (6, Kind::LineFeed) => 7,
        _ => 10,
    }
}

// The label of `state`.
fn label_of(state: usize) -> u8
    ensures { result ≡ slice_index labels state }
{
    match state {
        1 | 3 => 1,
        4 => 2,
        5 => 3,
        7 => 4,
        8 => 5,
        9 => 6,
        _ => 0,
    }
}

// The share table: rule 1 is a number, 2 a name, 3 blanks, 4 a line end, 5 a percent sign, 6 a point.
#[derive(Clone, Copy)]
pub struct ShareTable;

impl RuleTable for ShareTable {
    ghost meaning = { λ _. share_table };

    ghost sound = { λ _. share_table_is_sound };

    fn states(&self) -> usize {
        STATES
    }

    fn next(&self, state: usize, byte: u8) -> Option<usize> {
        (state < STATES).then(|| step(state, Kind::from(byte)))
    }

    fn label(&self, state: usize) -> Option<u8> {
        (state < STATES).then(|| label_of(state))
    }
}

impl Charted for ShareTable {
    ghost marks = { λ _. share_marks };

    fn open(&self, state: usize) -> Option<bool> {
        (state < STATES).then_some(state < CLOSED)
    }
}
