// What a call answers.
ghost use Rattle.session.specs.Answers.{Replies};
ghost use Rattle.session.specs.Telling.{Gives, Tells};
ghost use Rattle.std.specs.Prelude.{◌≡◌};

use charts::forward::Forward;
use cycles::finder::find;
use cycles::found::Found;
use graphs::nodes::NodeSet;
use graphs::route::Route;
use graphs::search::Reached;
use images::faults::LoadFault;
use queues::queue::Queue;
use queues::refusals::{DropRefusal, PutRefusal};
use script::command::Question;
use script::request::Request;
use tables::table::RuleTable;

// Which table is in hand.
#[derive(Clone, Copy, PartialEq, Eq, Debug)]
pub enum Hand {
    Share,
    Loaded,
}

// The answer to a command.
#[derive(Clone, Copy, PartialEq, Eq, Debug)]
pub enum Answer {
    Done,
    Refused(LoadFault),
    InHand { hand: Hand, states: usize },
    States(usize),
    Next(Option<usize>),
    Label(Option<u8>),
    Open(Option<bool>),
    Path(Option<Route>),
    Found(Found),
    Count(usize),
    Limit(usize),
    Element(Option<u8>),
    NotPut(PutRefusal),
    NotDropped(DropRefusal),
}

// A path of one or more edges in the forward graph of a table, from one node to another.
fn path<T: RuleTable>(table: &T, from: usize, to: usize) -> Option<Route>
    ensures { Gives (T.meaning table.now) from to result }
{
    let mut starts = NodeSet::empty();
    starts.insert(from);
    Reached::search(&Forward::new(table), &starts).route_to(to)
}

// What a rule table answers to a question.
pub fn ask<T: RuleTable>(table: &T, question: Question) -> Answer
    ensures { Tells (T.meaning table.now) question result }
{
    match question {
        Question::States => Answer::States(table.states()),
        Question::Next { state, byte } => Answer::Next(table.next(state, byte)),
        Question::Label { state } => Answer::Label(table.label(state)),
        Question::Search { from, to } => Answer::Path(path(table, from, to)),
        Question::Find => Answer::Found(find(&Forward::new(table))),
    }
}

// What a queue of bytes answers to a request.
pub fn reply<Q: Queue<u8>>(queue: &mut Q, request: Request) -> Answer
    ensures { Replies (Q.meaning queue.old) request result (Q.meaning queue.new) }
{
    match request {
        Request::Count => Answer::Count(queue.count()),
        Request::Limit => Answer::Limit(queue.limit()),
        Request::Element { place } => Answer::Element(queue.element(place)),
        Request::Put { byte } => queue
            .put(byte)
            .map_or_else(Answer::NotPut, |()| Answer::Done),
        Request::Drop { count } => queue
            .drop_front(count)
            .map_or_else(Answer::NotDropped, |()| Answer::Done),
    }
}
