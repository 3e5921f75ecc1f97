// Playing a whole script, and what it prints.
ghost use Rattle.script.specs.Lines.{lines};
ghost use Rattle.session.specs.Replays.{PlayedOver, Replays, stage, stage_of};
ghost use Rattle.session.specs.Sessions.{Fresh, fresh};
ghost use Rattle.session.specs.Texts.{outcome_text};
ghost use Rattle.queues.specs.Queue.{Held};
ghost use Rattle.std.specs.Prelude.{◌≡◌, ℕ, [], IfOk, string_bytes};

use crate::player::Player;
use crate::session::{Outcome, Session};
use queues::queue::Queue;
use queues::ring::Ring;
use queues::straight::Straight;
use script::lines::Lines;
use script::request::{Making, QueueKind};
use std::alloc::{AllocError, Global};

// What is printed for the line with this number.
pub fn print(heap: Global, number: usize, outcome: Outcome) -> Result<String, AllocError>
    ensures { IfOk result (λ text. string_bytes text ≡ outcome_text number outcome) }
{
    match outcome {
        Outcome::PassedOver => Ok(String::new(heap)),
        Outcome::Wrong(mistake) => format!(in heap; "line {number}: {mistake}\n"),
        Outcome::Answered { command, answer } => format!(in heap; "{command} -> {answer}\n"),
    }
}

impl<'a> Player<'a> {
    // Before the first line of a script.
    fn new(heap: Global, script: &'a [u8]) -> Player<'a>
        ensures fresh { Fresh result.session }
        ensures first { (q : Held ℕ) → stage_of result q ≡ stage result.session q 0 (lines script.now) [] }
    {
        Player {
            heap,
            session: Session::new(),
            lines: Lines::new(script).enumerate(),
            printed: String::new(heap),
        }
    }

    // Plays the lines that are left over one queue, up to a line that makes another, and gives that one.
    fn play_over<Q: Queue<u8>>(&mut self, queue: &mut Q) -> Result<Option<Making>, AllocError>
        ensures { IfOk result (PlayedOver (stage_of self.old (Q.meaning queue.old)) (stage_of self.new (Q.meaning queue.new))) }
    {
        while let Some((played, line)) = self.lines.next() {
            let outcome = self.session.play(queue, self.heap, line)?;
            let making = outcome.making();
            let text = print(self.heap, played + 1, outcome)?;
            self.printed.push_str(text.as_str())?;
            if making.is_some() {
                return Ok(making);
            }
        }
        Ok(None)
    }

    // Plays the lines that are left over a new queue, up to a line that makes another, and gives that one.
    fn play_new(&mut self, making: Making) -> Result<Option<Making>, AllocError>
        ensures { IfOk result (λ next. (q : Held ℕ) × PlayedOver (stage_of self.old (fresh making)) (stage_of self.new q) next) }
    {
        let mut memory = vec![in self.heap; 0u8; making.length]?;
        // Two arms alike: the queues are of two types, and `play_over` is generic in them.
        match making.kind {
            QueueKind::Ring => self.play_over(&mut Ring::new(memory.as_mut_slice())),
            QueueKind::Straight => self.play_over(&mut Straight::new(memory.as_mut_slice())),
        }
    }
}

// Plays a script from its first line to its last, and gives all that is printed.
pub fn replay(heap: Global, script: &[u8]) -> Result<String, AllocError>
    ensures { IfOk result (λ text. Replays (lines script.now) (string_bytes text)) }
{
    let mut player = Player::new(heap, script);
    let mut making = Making {
        kind: QueueKind::Ring,
        length: 0,
    };
    while let Some(next) = player.play_new(making)? {
        making = next;
    }
    let Player { printed, .. } = player;
    Ok(printed)
}
