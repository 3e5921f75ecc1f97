// A session: the tables that the commands of a script speak of.
ghost use Rattle.session.specs.Sessions.{Answers, Fresh, Loads, Plays, in_hand, making_of, marks_in_hand};
ghost use Rattle.session.specs.Telling.{Tells};
ghost use Rattle.std.specs.Prelude.{◌≡◌, MatchResult};
ghost use Rattle.tables.specs.Openness.{tells_open};

use crate::answer::{Answer, Hand, ask, reply};
use charts::chart::Chart;
use images::loaded::LoadedTable;
use queues::queue::Queue;
use script::command::{Command, Question};
use script::mistake::{Mistake, Unread};
use script::request::Making;
use std::alloc::{AllocError, Global};
use tables::charted::Charted;
use tables::share::ShareTable;
use tables::table::RuleTable;

// What comes of a line. No `Result`: a mistake is printed and the script goes on, and only memory that fails is an `Err`.
#[derive(Drop)]
pub enum Outcome {
    PassedOver,
    Wrong(Mistake),
    Answered { command: Command, answer: Answer },
}

impl Outcome {
    // The queue that is to be made, if the line says so.
    pub fn making(&self) -> Option<Making>
        ensures { result ≡ making_of self.now }
    {
        match self {
            Outcome::Answered {
                command: Command::Make(making),
                ..
            } => Some(*making),
            _ => None,
        }
    }
}

// The loaded table, charted, and which table is in hand.
#[derive(Drop)]
pub struct Session {
    loaded: Chart<LoadedTable>,
    hand: Hand,
}

impl Session {
    // At first the loaded table is the empty table, and it is in hand.
    pub fn new() -> Session
        ensures { Fresh result }
    {
        Session {
            loaded: Chart::new(LoadedTable::empty()),
            hand: Hand::Loaded,
        }
    }

    // Asks the table in hand. The tables are of two types, no closure is generic over both, and a `dyn` of one could not be
    // handed out, so the two below switch too.
    fn ask(&self, question: Question) -> Answer
        ensures { Tells (in_hand self.now) question result }
    {
        match self.hand {
            Hand::Share => ask(&ShareTable, question),
            Hand::Loaded => ask(&self.loaded, question),
        }
    }

    // Whether a state of the table in hand is open.
    fn open(&self, state: usize) -> Option<bool>
        ensures { result ≡ tells_open (in_hand self.now) (marks_in_hand self.now) state }
    {
        match self.hand {
            Hand::Share => ShareTable.open(state),
            Hand::Loaded => self.loaded.open(state),
        }
    }

    // The number of states of the table in hand.
    fn states(&self) -> usize
        ensures { result ≡ (in_hand self.now).states }
    {
        match self.hand {
            Hand::Share => ShareTable.states(),
            Hand::Loaded => self.loaded.states(),
        }
    }

    // Loads and charts the table that an image writes down, and takes it in hand.
    fn load(&mut self, image: &[u8]) -> Answer
        ensures { Loads self.old image.now result self.new }
    {
        let mut table = LoadedTable::empty();
        match table.load(image) {
            Ok(()) => {
                self.loaded = Chart::new(table);
                self.hand = Hand::Loaded;
                Answer::Done
            }
            Err(fault) => Answer::Refused(fault),
        }
    }

    // Makes the call of a command, over the queue in hand, and gives its answer. A new queue is left to the caller.
    pub fn call<Q: Queue<u8>>(&mut self, queue: &mut Q, command: &Command) -> Answer
        ensures { Answers self.old (Q.meaning queue.old) command.now result self.new (Q.meaning queue.new) }
    {
        match command {
            Command::Share => {
                self.hand = Hand::Share;
                Answer::Done
            }
            Command::Load(image) => self.load(image.as_slice()),
            Command::Table => Answer::InHand {
                hand: self.hand,
                states: self.states(),
            },
            Command::Ask(question) => self.ask(*question),
            Command::Open { state } => Answer::Open(self.open(*state)),
            Command::Make(_) => Answer::Done,
            Command::Queue(request) => reply(queue, *request),
        }
    }

    // Plays one line. Where memory fails, nothing changes.
    pub fn play<Q: Queue<u8>>(
        &mut self,
        queue: &mut Q,
        heap: Global,
        line: &[u8],
    ) -> Result<Outcome, AllocError>
        ensures { MatchResult result (λ outcome. Plays self.old (Q.meaning queue.old) line.now outcome self.new (Q.meaning queue.new)) (λ _. (self.new ≡ self.old) × (Q.meaning queue.new ≡ Q.meaning queue.old)) }
    {
        match Command::read(heap, line) {
            Ok(None) => Ok(Outcome::PassedOver),
            Ok(Some(command)) => {
                let answer = self.call(queue, &command);
                Ok(Outcome::Answered { command, answer })
            }
            Err(Unread::Wrong(mistake)) => Ok(Outcome::Wrong(mistake)),
            Err(Unread::Memory(error)) => Err(error),
        }
    }
}
