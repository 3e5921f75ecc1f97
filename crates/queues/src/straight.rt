// The straight queue: its elements lie in one run at the front of its memory.
ghost use Rattle.queues.specs.Memory.{limit_of, straight_held, straight_letter};
ghost use Rattle.queues.specs.Queue.{Held};
ghost use Rattle.std.specs.Prelude.{◌≡◌, ◌≤◌, []};

use crate::memory::{left_after, limit_over, room};
use crate::queue::Queue;
use crate::refusals::{DropRefusal, PutRefusal};
use std::marker::Model;

// The letter of a straight queue, apart from the trait's constant: of that one the proof of a method knows no value.
const STRAIGHT: char = 'S';

// A queue that keeps its elements in one run, at the front of memory lent by the caller. The library allocates nothing,
// so the count stands beside the memory.
#[derive(Drop)]
pub struct Straight<'a, T> {
    memory: &'a mut [T],
    count: usize,
}

impl<'a, T> Model for Straight<'a, T> {
    ghost Value = { Held T };

    ghost view = { λ q. straight_held q.memory.now q.count };

    ghost invariant = { λ q. q.count ≤ limit_of q.memory.now };
}

impl<'a, T: Copy> Straight<'a, T> {
    // An empty straight queue over `memory`.
    pub fn new(memory: &'a mut [T]) -> Straight<'a, T>
        ensures { result ≡ record { items = []; limit = limit_of memory.old; letter = straight_letter } }
    {
        Straight { memory, count: 0 }
    }
}

impl<'a, T: Copy> Queue<T> for Straight<'a, T> {
    const LETTER: char = STRAIGHT;

    ghost meaning = { λ q. q };

    fn count(&self) -> usize {
        self.count
    }

    fn limit(&self) -> usize {
        limit_over(self.memory)
    }

    fn element(&self, place: usize) -> Option<T> {
        self.memory[..self.count].get(place).copied()
    }

    fn put(&mut self, element: T) -> Result<(), PutRefusal> {
        room(self.count, self.limit(), STRAIGHT)?;
        self.memory[self.count] = element;
        self.count += 1;
        Ok(())
    }

    fn drop_front(&mut self, k: usize) -> Result<(), DropRefusal> {
        let left = left_after(self.count, k)?;
        self.memory.copy_within(k..self.count, 0);
        self.count = left;
        Ok(())
    }
}
