// What is printed of an answer.
ghost use Rattle.session.specs.Texts.{answer_text, hand_text};
ghost use Rattle.std.specs.Prelude.{Some};

use crate::answer::{Answer, Hand};
use cycles::found::Found;
use std::fmt;

impl fmt::Display for Hand {
    ghost output = { λ hand. Some (hand_text hand) };

    fn fmt<W: fmt::Write>(&self, f: &mut fmt::Formatter<W>) -> fmt::Result {
        match self {
            Hand::Share => write!(f, "share table"),
            Hand::Loaded => write!(f, "loaded table"),
        }
    }
}

impl fmt::Display for Answer {
    ghost output = { λ answer. Some (answer_text answer) };

    fn fmt<W: fmt::Write>(&self, f: &mut fmt::Formatter<W>) -> fmt::Result {
        match *self {
            Answer::Done => write!(f, "ok"),
            Answer::Refused(fault) => {
                let layer = fault.layer().letter();
                let number = fault.number();
                let place = fault.place();
                write!(
                    f,
                    "refused: {fault} (layer {layer}, number {number}, place {place})"
                )
            }
            Answer::InHand { hand, states } => write!(f, "{hand}, states {states}"),
            Answer::States(states) => write!(f, "{states}"),
            Answer::Next(Some(state)) => write!(f, "{state}"),
            Answer::Label(Some(label)) => write!(f, "{label}"),
            Answer::Count(count) => write!(f, "{count}"),
            Answer::Limit(limit) => write!(f, "{limit}"),
            Answer::Element(Some(byte)) => write!(f, "{byte}"),
            Answer::Open(Some(true)) => write!(f, "yes"),
            Answer::Open(Some(false)) => write!(f, "no"),
            Answer::Path(Some(route)) => write!(f, "path {route}"),
            Answer::Found(Found::Cycle(route)) => write!(f, "cycle {route}"),
            Answer::Found(Found::Longest(route)) => write!(f, "longest path {route}"),
            Answer::Next(None)
            | Answer::Label(None)
            | Answer::Open(None)
            | Answer::Path(None)
            | Answer::Element(None) => write!(f, "none"),
            Answer::NotPut(refusal) => {
                let number = refusal.number();
                let letter = refusal.letter();
                write!(f, "refused: {refusal} (number {number}, letter {letter})")
            }
            Answer::NotDropped(refusal) => {
                let number = refusal.number();
                write!(f, "refused: {refusal} (number {number})")
            }
        }
    }
}
