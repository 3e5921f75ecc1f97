// What a queue refuses.
ghost use Rattle.queues.specs.Refusals.{drop_told, full_letter, put_told};
ghost use Rattle.queues.specs.Texts.{drop_refusal_text, put_refusal_text};
ghost use Rattle.std.specs.Prelude.{◌≡◌, Some};

use std::error::Error;
use std::fmt;

// Why a put was refused.
#[derive(Clone, Copy, PartialEq, Eq, Debug)]
pub enum PutRefusal {
    // The queue is full: its count has reached its limit. The letter tells which kind of queue it is.
    Full { letter: char },
}

impl PutRefusal {
    // The number of the refusal. A method and no conversion: a refusal tells it, and is more than it. Of no trait: nothing
    // takes a refusal of any kind.
    pub fn number(self) -> u8
        ensures { result ≡ (put_told self).number }
    {
        match self {
            PutRefusal::Full { .. } => 8,
        }
    }

    // The letter of the queue that was full.
    pub fn letter(self) -> char
        ensures { result ≡ full_letter self }
    {
        match self {
            PutRefusal::Full { letter } => letter,
        }
    }
}

impl fmt::Display for PutRefusal {
    ghost output = { λ refusal. Some (put_refusal_text refusal) };

    fn fmt<W: fmt::Write>(&self, f: &mut fmt::Formatter<W>) -> fmt::Result {
        match self {
            PutRefusal::Full { .. } => write!(f, "queue full"),
        }
    }
}

impl Error for PutRefusal {}

// Why a drop was refused.
#[derive(Clone, Copy, PartialEq, Eq, Debug)]
pub enum DropRefusal {
    // More elements were to be dropped than the queue has.
    BeyondCount,
}

impl DropRefusal {
    // The number of the refusal: a method of no trait, as that of a put's.
    pub fn number(self) -> u8
        ensures { result ≡ (drop_told self).number }
    {
        match self {
            DropRefusal::BeyondCount => 9,
        }
    }
}

impl fmt::Display for DropRefusal {
    ghost output = { λ refusal. Some (drop_refusal_text refusal) };

    fn fmt<W: fmt::Write>(&self, f: &mut fmt::Formatter<W>) -> fmt::Result {
        match self {
            DropRefusal::BeyondCount => write!(f, "drop beyond the count"),
        }
    }
}

impl Error for DropRefusal {}
