// The ring: a queue that runs round in its memory.
ghost use Rattle.queues.specs.Memory.{limit_of, ring_held, ring_letter};
ghost use Rattle.queues.specs.Queue.{Held};
ghost use Rattle.std.specs.Prelude.{◌≡◌, ◌+◌, ◌-◌, ◌≤◌, [], if◌then◌else◌, nat_lt};

use crate::memory::{left_after, limit_over, room};
use crate::queue::Queue;
use crate::refusals::{DropRefusal, PutRefusal};
use std::marker::Model;

// The letter of a ring, apart from the trait's constant: of that one the proof of a method knows no value.
const RING: char = 'R';

// A queue that runs round in memory lent by the caller: behind the last place in use comes the first. The library
// allocates nothing, so the count stands beside the memory.
#[derive(Drop)]
pub struct Ring<'a, T> {
    memory: &'a mut [T],
    head: usize,
    count: usize,
}

impl<'a, T> Model for Ring<'a, T> {
    ghost Value = { Held T };

    ghost view = { λ q. ring_held q.memory.now q.head q.count };

    ghost invariant = { λ q. (q.head ≤ limit_of q.memory.now) × (q.count ≤ limit_of q.memory.now) };
}

impl<'a, T: Copy> Ring<'a, T> {
    // An empty ring over `memory`.
    pub fn new(memory: &'a mut [T]) -> Ring<'a, T>
        ensures { result ≡ record { items = []; limit = limit_of memory.old; letter = ring_letter } }
    {
        Ring {
            memory,
            head: 0,
            count: 0,
        }
    }
}

// The place `by` behind `head`, where `limit` places are in use.
fn wrapped(head: usize, by: usize, limit: usize) -> usize
    requires head { head ≤ limit }
    requires by { by ≤ limit }
    requires few { limit ≤ 1048576 }
    ensures { result ≡ (if nat_lt (head + by) limit then head + by else head + by - limit) }
{
    let at = head + by;
    if at < limit { at } else { at - limit }
}

impl<'a, T: Copy> Queue<T> for Ring<'a, T> {
    const LETTER: char = RING;

    ghost meaning = { λ q. q };

    fn count(&self) -> usize {
        self.count
    }

    fn limit(&self) -> usize {
        limit_over(self.memory)
    }

    fn element(&self, place: usize) -> Option<T> {
        // Under `then` a closure would need clauses on the fields, which say again what `wrapped` and the index ask.
        if place < self.count {
            Some(self.memory[wrapped(self.head, place, self.limit())])
        } else {
            None
        }
    }

    fn put(&mut self, element: T) -> Result<(), PutRefusal> {
        let limit = self.limit();
        room(self.count, limit, RING)?;
        self.memory[wrapped(self.head, self.count, limit)] = element;
        self.count += 1;
        Ok(())
    }

    fn drop_front(&mut self, k: usize) -> Result<(), DropRefusal> {
        let left = left_after(self.count, k)?;
        self.head = wrapped(self.head, k, self.limit());
        self.count = left;
        Ok(())
    }
}
