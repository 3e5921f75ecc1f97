// Cutting a line into words.
ghost use Rattle.script.specs.Words.{blank, words};
ghost use Rattle.std.specs.Iterator.{item_count, YieldsFirstRef};
ghost use Rattle.std.specs.Prelude.{◌≡◌, not, position};

use std::marker::Model;

// Whether `byte` separates words: a space, a tab or a carriage return.
pub(crate) fn is_blank(byte: u8) -> bool
    ensures { result ≡ blank byte }
{
    matches!(byte, b' ' | b'\t' | b'\r')
}

// The place of the first byte that is no blank, if there is one.
fn word_start(line: &[u8]) -> Option<usize>
    ensures { result ≡ position (λ b. not (blank b)) line.now }
{
    line.iter().position(|byte| !is_blank(*byte))
}

// The place of the first blank, if there is one.
fn word_end(text: &[u8]) -> Option<usize>
    ensures { result ≡ position blank text.now }
{
    text.iter().position(|byte| is_blank(*byte))
}

// The words of a line, one after another: those that are left.
#[derive(Drop)]
pub(crate) struct Words<'a> {
    rest: &'a [u8],
}

impl<'a> Model for Words<'a> {
    ghost use Rattle.script.specs.Words.{words};
    ghost use Rattle.std.specs.Prelude.{ℕ, List};

    ghost Value = { List (List ℕ) };

    ghost view = { λ w. words w.rest.now };
}

impl<'a> Words<'a> {
    // All words of a line.
    pub(crate) fn new(line: &'a [u8]) -> Words<'a>
        ensures { result ≡ words line.now }
    {
        Words { rest: line }
    }

    // The line that is left: the words in it, and the blanks.
    pub(crate) fn line(&self) -> &'a [u8]
        ensures { words result.now ≡ self.now }
    {
        self.rest
    }
}

impl<'a> Iterator for Words<'a> {
    type Item = &'a [u8];

    ghost next_gives = { YieldsFirstRef (λ left. left) };

    ghost remaining = { item_count (λ left. left) };

    // The first word that is left.
    fn next(&mut self) -> Option<&'a [u8]> {
        let (_, text) = self.rest.split_at(word_start(self.rest)?);
        let (word, behind) = text.split_at(word_end(text).unwrap_or(text.len()));
        self.rest = behind;
        Some(word)
    }
}
