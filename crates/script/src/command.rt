// The commands of a script, and how a line says one.
ghost use Rattle.script.specs.Commands.{asks, call_of, comment, may_call_of, requests, says, takes};
ghost use Rattle.script.specs.Reading.{Reads};
ghost use Rattle.script.specs.Words.{words};
ghost use Rattle.std.specs.Prelude.{◌≡◌, Ok, Err};

use crate::hex::hex_bytes;
use crate::mistake::{Mistake, Unread};
use crate::name::{Asked, Name, Requested};
use crate::operands::{kind_and_length, no_operand, one, two};
use crate::request::{Making, Request};
use crate::spelled::Spelled;
use crate::words::Words;
use std::alloc::Global;

// What can be asked of every rule table.
#[derive(Clone, Copy, PartialEq, Eq, Debug)]
pub enum Question {
    States,
    Next { state: usize, byte: u8 },
    Label { state: usize },
    // A path of one edge or more in the forward graph.
    Search { from: usize, to: usize },
    // A cycle of the forward graph, or a longest path where it has none.
    Find,
}

// A command of a script, with its operands.
#[derive(Drop)]
pub enum Command {
    // Take the share table in hand.
    Share,
    // Load the table that an image writes down, and take it in hand.
    Load(Vec<u8>),
    // Say which table is in hand.
    Table,
    // Ask the table in hand.
    Ask(Question),
    // Ask the table in hand, charted, whether some word of at least one byte leads from the state to an accepting one.
    Open { state: usize },
    // Make a queue, and take it in hand.
    Make(Making),
    // Make a call on the queue in hand.
    Queue(Request),
}

// Whether a line with this first word is a comment: it begins with #.
fn is_comment(word: &[u8]) -> bool
    ensures { result ≡ comment word.now }
{
    word.starts_with(b"#")
}

impl Question {
    // The question of a name, with the operands that the words write. It shares no trait with the two below: nothing is
    // generic in what they give, and the third may run out of memory.
    fn with_operands(asked: Asked, words: Words) -> Result<Question, Mistake>
        ensures { result ≡ asks asked words.entry }
    {
        match asked {
            Asked::States => no_operand(words).map(|()| Question::States),
            Asked::Next => two(words).map(|(state, byte)| Question::Next { state, byte }),
            Asked::Label => one(words).map(|state| Question::Label { state }),
            Asked::Search => two(words).map(|(from, to)| Question::Search { from, to }),
            Asked::Find => no_operand(words).map(|()| Question::Find),
        }
    }
}

impl Request {
    // The request of a name, with the operands that the words write.
    fn with_operands(requested: Requested, words: Words) -> Result<Request, Mistake>
        ensures { result ≡ requests requested words.entry }
    {
        match requested {
            Requested::Count => no_operand(words).map(|()| Request::Count),
            Requested::Limit => no_operand(words).map(|()| Request::Limit),
            Requested::Element => one(words).map(|place| Request::Element { place }),
            Requested::Put => one(words).map(|byte| Request::Put { byte }),
            Requested::Drop => one(words).map(|count| Request::Drop { count }),
        }
    }
}

impl Command {
    // The command of a name, with the operands that the words write.
    fn with_operands(heap: Global, name: Name, words: Words) -> Result<Command, Unread>
        ensures { Reads result (λ command. takes name words.entry ≡ Ok (call_of command)) (λ mistake. takes name words.entry ≡ Err mistake) }
    {
        match name {
            Name::Share => {
                no_operand(words)?;
                Ok(Command::Share)
            }
            Name::Load => Ok(Command::Load(hex_bytes(heap, words)?)),
            Name::Table => {
                no_operand(words)?;
                Ok(Command::Table)
            }
            Name::Ask(asked) => Ok(Command::Ask(Question::with_operands(asked, words)?)),
            Name::Open => Ok(Command::Open { state: one(words)? }),
            Name::Make => Ok(Command::Make(kind_and_length(words)?)),
            Name::Queue(requested) => Ok(Command::Queue(Request::with_operands(requested, words)?)),
        }
    }

    // The command that a line says, or `None` where the line is passed over.
    pub fn read(heap: Global, line: &[u8]) -> Result<Option<Command>, Unread>
        ensures { Reads result (λ command. says (words line.now) ≡ Ok (may_call_of command)) (λ mistake. says (words line.now) ≡ Err mistake) }
    {
        let mut words = Words::new(line);
        let Some(word) = words.next() else {
            return Ok(None);
        };
        if is_comment(word) {
            return Ok(None);
        }
        let name = Name::of(word).ok_or(Mistake::NoSuchCommand)?;
        let command = Command::with_operands(heap, name, words)?;
        Ok(Some(command))
    }
}
