// What every queue does.
ghost use Rattle.queues.specs.Queue.{Dropped, Held, Put};
ghost use Rattle.std.specs.List.{slice_get};
ghost use Rattle.std.specs.Prelude.{◌≡◌, ◌≤◌, length};

use crate::refusals::{DropRefusal, PutRefusal};

// The most elements that a ring or a straight queue holds.
pub const MAX_LIMIT: usize = 1_048_576;

// A queue of elements that can be copied: a list with a front and a back, and a limit that never changes.
// Asking, or a refusal, leaves the list as it was.
pub trait Queue<T: Copy> {
    // The letter of this kind of queue.
    const LETTER: char;

    ghost meaning: { Self → Held T };

    // How many elements there are: never more than the limit. As a law of the trait that would have to hold of every list
    // with any limit.
    fn count(&self) -> usize
        ensures value { result ≡ length (meaning self.now).items }
        ensures within { result ≤ (meaning self.now).limit };

    // The most elements that there can be.
    fn limit(&self) -> usize
        ensures { result ≡ (meaning self.now).limit };

    // The element at a place, counted from the front, or `None` past the back.
    fn element(&self, place: usize) -> Option<T>
        ensures { result ≡ slice_get (meaning self.now).items place };

    // Adds an element at the back.
    fn put(&mut self, element: T) -> Result<(), PutRefusal>
        ensures { Put (meaning self.old) element result (meaning self.new) };

    // Takes `k` elements from the front.
    fn drop_front(&mut self, k: usize) -> Result<(), DropRefusal>
        ensures { Dropped (meaning self.old) k result (meaning self.new) };
}
