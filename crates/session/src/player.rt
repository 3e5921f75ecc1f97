// A script that is being played. Its methods are in replay.rt: their clauses name definitions that speak of a player.
ghost use Rattle.std.specs.Iterator.Adapters.{enumerate_count, enumerate_source};
ghost use Rattle.std.specs.Prelude.{◌+◌, ◌^◌, ◌<◌, length};

use crate::session::Session;
use script::lines::Lines;
use std::alloc::Global;
use std::iter::Enumerate;

// The lines of a script that are left, each with how many were played before it, the session that plays them, and what
// the others printed.
#[derive(Drop)]
pub(crate) struct Player<'a> {
    pub(crate) heap: Global,
    pub(crate) session: Session,
    pub(crate) lines: Enumerate<Lines<'a>>,
    pub(crate) printed: String,
    ghost fits: { enumerate_count lines + length (enumerate_source lines) < 2 ^ 64 },
}
