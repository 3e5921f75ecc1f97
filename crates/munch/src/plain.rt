// Munch of a slice, in code.
ghost use Rattle.munch.specs.Plain.{MunchedInto, TellsLongest};
ghost use Rattle.std.specs.Prelude.{◌≡◌, ◌<◌, length, MatchOption};

use tables::table::RuleTable;

// A token: the rule that accepted it, the place of its first byte, and how many bytes it has.
#[derive(Clone, Copy, PartialEq, Eq, Debug)]
pub struct Lexeme {
    pub rule: u8,
    pub place: usize,
    pub length: usize,
}

// How munch ended: with every byte in a token, or at a place where no token begins.
// No Option or Result: both are ends that munch has, and neither is the other's failure.
#[derive(Clone, Copy, PartialEq, Eq, Debug)]
pub enum Ending {
    Done,
    Stuck { place: usize },
}

// What munch gave: how many tokens it wrote, and how it ended.
#[derive(Clone, Copy, PartialEq, Eq, Debug)]
pub struct Munched {
    pub count: usize,
    pub ending: Ending,
}

// The length and the rule of the longest accepted beginning of `bytes`, or `None` where no beginning is accepted.
fn longest<T: RuleTable>(table: &T, bytes: &[u8]) -> Option<(usize, u8)>
    ensures { TellsLongest (T.meaning table.now) bytes.now result }
{
    let mut state = 0;
    let mut best = None;
    for (i, byte) in bytes.iter().enumerate() {
        state = table.next(state, *byte)?;
        let rule = table.label(state)?;
        if rule != 0 {
            best = Some((i + 1, rule));
        }
    }
    best
}

// Munch of `bytes`: its tokens are written at the front of `list`, and the rest of `list` stays as it is; or `None`
// where the list is shorter than the bytes, and then nothing changes. The library allocates nothing, so the list is the
// caller's, and the count stands beside it.
pub fn munch<T: RuleTable>(table: &T, bytes: &[u8], list: &mut [Lexeme]) -> Option<Munched>
    ensures { MatchOption result ((length list.old < length bytes.now) × (list.new ≡ list.old)) (λ given. MunchedInto (T.meaning table.now) bytes.now list.old list.new given) }
{
    if list.len() < bytes.len() {
        return None;
    }
    let mut count = 0;
    let mut place = 0;
    // Not a `for`: each turn goes on by the bytes of its token, and the turns end with the bytes, not with the list.
    while place < bytes.len() {
        let Some((length, rule)) = longest(table, &bytes[place..]) else {
            return Some(Munched {
                count,
                ending: Ending::Stuck { place },
            });
        };
        list[count] = Lexeme {
            rule,
            place,
            length,
        };
        count += 1;
        place += length;
    }
    Some(Munched {
        count,
        ending: Ending::Done,
    })
}
