// Cutting a script into lines.
ghost use Rattle.script.specs.Lines.{lines};
ghost use Rattle.std.specs.Iterator.{item_count, YieldsFirstRef};
ghost use Rattle.std.specs.Prelude.{◌≡◌, ◌==◌, ◌<◌, ◌≤◌, [], ◌∷◌, length, position, MatchOption};

use std::marker::Model;

// The place of the first LF, if there is one.
fn line_end(script: &[u8]) -> Option<usize>
    ensures { result ≡ position (λ b. b == 10) script.now }
{
    script.iter().position(|byte| *byte == b'\n')
}

// The first line of a script and the lines behind it, or `None` where the script has no line.
pub fn first_line(script: &[u8]) -> Option<(&[u8], &[u8])>
    ensures { MatchOption result (lines script.now ≡ []) (λ cut. (lines script.now ≡ cut.0.now ∷ lines cut.1.now) × (length cut.1.now < length script.now)) }
{
    if script.is_empty() {
        return None;
    }
    let length = line_end(script).unwrap_or(script.len());
    let (line, behind) = script.split_at(length);
    Some((line, behind.get(1..).unwrap_or(behind)))
}

// The lines of a script, one after another: those that are left.
#[derive(Drop)]
pub struct Lines<'a> {
    rest: &'a [u8],
}

impl<'a> Model for Lines<'a> {
    ghost use Rattle.script.specs.Lines.{lines};
    ghost use Rattle.std.specs.Prelude.{ℕ, List};

    ghost Value = { List (List ℕ) };

    ghost view = { λ l. lines l.rest.now };
}

impl<'a> Lines<'a> {
    // All lines of a script.
    #[tactic(auto, using(crate::proofs::Ending::lines_few))]
    pub fn new(script: &'a [u8]) -> Lines<'a>
        ensures all { result ≡ lines script.now }
        ensures few { length result ≤ length script.now }
    {
        Lines { rest: script }
    }
}

impl<'a> Iterator for Lines<'a> {
    type Item = &'a [u8];

    ghost next_gives = { YieldsFirstRef (λ left. left) };

    ghost remaining = { item_count (λ left. left) };

    // The first line that is left.
    fn next(&mut self) -> Option<&'a [u8]> {
        let (line, behind) = first_line(self.rest)?;
        self.rest = behind;
        Some(line)
    }
}
