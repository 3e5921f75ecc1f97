// What is printed of a line: the text of its call, or of its mistake.
ghost use Rattle.script.specs.Kinds.{kind_spelled};
ghost use Rattle.script.specs.Texts.{call_text, mistake_text, question_text, request_text};
ghost use Rattle.std.specs.Prelude.{◌≡◌, Some};

use crate::command::{Command, Question};
use crate::mistake::Mistake;
use crate::request::{QueueKind, Request};
use crate::spelled::Spelled;
use std::fmt;

impl fmt::Display for Mistake {
    ghost output = { λ mistake. Some (mistake_text mistake) };

    fn fmt<W: fmt::Write>(&self, f: &mut fmt::Formatter<W>) -> fmt::Result {
        f.write_str(match self {
            Mistake::NoSuchCommand => "no such command",
            Mistake::TooFewWords => "too few words",
            Mistake::TooManyWords => "too many words",
            Mistake::NotANumber => "not a number",
            Mistake::NotAByte => "not a byte",
            Mistake::NoSuchKind => "no such kind",
            Mistake::TooMuchMemory => "too much memory",
            Mistake::NotHexadecimal => "not hexadecimal",
        })
    }
}

impl fmt::Display for QueueKind {
    ghost output = { λ kind. Some (kind_spelled kind) };

    fn fmt<W: fmt::Write>(&self, f: &mut fmt::Formatter<W>) -> fmt::Result {
        f.write_str(self.spelling())
    }
}

impl fmt::Display for Question {
    ghost output = { λ question. Some (question_text question) };

    fn fmt<W: fmt::Write>(&self, f: &mut fmt::Formatter<W>) -> fmt::Result {
        match *self {
            Question::States => write!(f, "states"),
            Question::Next { state, byte } => write!(f, "next {state} {byte}"),
            Question::Label { state } => write!(f, "label {state}"),
            Question::Search { from, to } => write!(f, "search {from} {to}"),
            Question::Find => write!(f, "find"),
        }
    }
}

impl fmt::Display for Request {
    ghost output = { λ request. Some (request_text request) };

    fn fmt<W: fmt::Write>(&self, f: &mut fmt::Formatter<W>) -> fmt::Result {
        match *self {
            Request::Count => write!(f, "count"),
            Request::Limit => write!(f, "limit"),
            Request::Element { place } => write!(f, "element {place}"),
            Request::Put { byte } => write!(f, "put {byte}"),
            Request::Drop { count } => write!(f, "drop {count}"),
        }
    }
}

impl fmt::Display for Command {
    ghost output = { λ command. Some (call_text command) };

    fn fmt<W: fmt::Write>(&self, f: &mut fmt::Formatter<W>) -> fmt::Result {
        match self {
            Command::Share => write!(f, "share"),
            Command::Load(image) => {
                let length = image.len();
                write!(f, "load {length} bytes")
            }
            Command::Table => write!(f, "table"),
            Command::Ask(question) => write!(f, "{question}"),
            Command::Open { state } => write!(f, "open {state}"),
            Command::Make(making) => {
                let kind = making.kind;
                let length = making.length;
                write!(f, "queue {kind} {length}")
            }
            Command::Queue(request) => write!(f, "{request}"),
        }
    }
}
