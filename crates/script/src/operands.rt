// The operands of commands: the words behind a name.
ghost use Rattle.script.specs.Operands.{byte, kind, kind_and_length, no_operand, number, one, one_word, two, two_words};
ghost use Rattle.std.specs.Prelude.{◌≡◌, Ok, Err, ℕ, List, MatchResult, Result};
ghost use Rattle.script.specs.declared.mistake.Mistake.{Mistake};

use crate::mistake::Mistake;
use crate::number;
use crate::request::{Making, QueueKind};
use crate::spelled::Spelled;
use crate::words::Words;

// The most bytes of memory that a script may ask for.
const MOST_MEMORY: usize = 2_097_152;

// What one word can write. No `TryFrom`: numbers could have it only from a type that this crate made for words alone.
pub(crate) trait Operand: Sized {
    ghost reads: { List ℕ → Result Self Mistake };

    fn read(word: &[u8]) -> Result<Self, Mistake>
        ensures { result ≡ reads word.now };
}

impl Operand for usize {
    ghost reads = { number };

    fn read(word: &[u8]) -> Result<usize, Mistake> {
        number::number(word).ok_or(Mistake::NotANumber)
    }
}

impl Operand for u8 {
    ghost reads = { byte };

    fn read(word: &[u8]) -> Result<u8, Mistake> {
        number::byte(word).ok_or(Mistake::NotAByte)
    }
}

impl Operand for QueueKind {
    ghost reads = { kind };

    fn read(word: &[u8]) -> Result<QueueKind, Mistake> {
        QueueKind::of(word).ok_or(Mistake::NoSuchKind)
    }
}

// No operand: no word is left.
pub(crate) fn no_operand(mut words: Words) -> Result<(), Mistake>
    ensures { result ≡ no_operand words.entry }
{
    match words.next() {
        None => Ok(()),
        Some(_) => Err(Mistake::TooManyWords),
    }
}

// The only word that is left.
fn one_word<'a>(mut words: Words<'a>) -> Result<&'a [u8], Mistake>
    ensures { MatchResult result (λ word. one_word words.entry ≡ Ok word.now) (λ mistake. one_word words.entry ≡ Err mistake) }
{
    let word = words.next().ok_or(Mistake::TooFewWords)?;
    no_operand(words)?;
    Ok(word)
}

// The only two words that are left.
fn two_words<'a>(mut words: Words<'a>) -> Result<(&'a [u8], &'a [u8]), Mistake>
    ensures { MatchResult result (λ pair. two_words words.entry ≡ Ok (pair.0.now, pair.1.now)) (λ mistake. two_words words.entry ≡ Err mistake) }
{
    let first = words.next().ok_or(Mistake::TooFewWords)?;
    let second = one_word(words)?;
    Ok((first, second))
}

// One operand.
pub(crate) fn one<T: Operand>(words: Words) -> Result<T, Mistake>
    ensures { result ≡ one T.reads words.entry }
{
    T::read(one_word(words)?)
}

// Two operands.
pub(crate) fn two<A: Operand + Drop, B: Operand>(words: Words) -> Result<(A, B), Mistake>
    ensures { result ≡ two A.reads B.reads words.entry }
{
    let (first, second) = two_words(words)?;
    let a = A::read(first)?;
    let b = B::read(second)?;
    Ok((a, b))
}

// Two operands, a kind of queue and how many bytes of memory it is to stand over.
pub(crate) fn kind_and_length(words: Words) -> Result<Making, Mistake>
    ensures { result ≡ kind_and_length words.entry }
{
    let (kind, length) = two(words)?;
    if length > MOST_MEMORY {
        return Err(Mistake::TooMuchMemory);
    }
    Ok(Making { kind, length })
}
