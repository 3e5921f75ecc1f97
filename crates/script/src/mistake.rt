// Why a line is not read.
ghost use Rattle.script.specs.declared.mistake.Unread.TheVariants.{Wrong, Memory};
ghost use Rattle.std.specs.Prelude.{◌≡◌};

use std::alloc::AllocError;

// What is wrong with a line that is no command.
#[derive(Clone, Copy, PartialEq, Eq, Debug)]
pub enum Mistake {
    NoSuchCommand,
    TooFewWords,
    TooManyWords,
    NotANumber,
    NotAByte,
    NoSuchKind,
    TooMuchMemory,
    NotHexadecimal,
}

// A line is not read: it is no command, or memory fails.
#[derive(Drop, Debug)]
pub enum Unread {
    Wrong(Mistake),
    Memory(AllocError),
}

// Both by hand and not derived, since clauses name the error that `?` makes.
impl From<Mistake> for Unread {
    ghost from_gives = { λ mistake r. r ≡ Wrong mistake };

    fn from(mistake: Mistake) -> Unread {
        Unread::Wrong(mistake)
    }
}

impl From<AllocError> for Unread {
    ghost from_gives = { λ error r. r ≡ Memory error };

    fn from(error: AllocError) -> Unread {
        Unread::Memory(error)
    }
}
