// What both kinds of queue share: how many elements their memory holds, and what they refuse.
ghost use Rattle.queues.specs.Memory.{limit_of};
ghost use Rattle.queues.specs.declared.refusals.PutRefusal.TheVariants.{Full};
ghost use Rattle.std.specs.Prelude.{◌≡◌, ◌-◌, ◌<◌, ◌≤◌, MatchResult};

use crate::queue::MAX_LIMIT;
use crate::refusals::{DropRefusal, PutRefusal};

// The most elements that a queue over `memory` holds. Each kind asks it of its own memory, which the trait does not see.
pub(crate) fn limit_over<T>(memory: &[T]) -> usize
    ensures { result ≡ limit_of memory.now }
{
    memory.len().min(MAX_LIMIT)
}

// Whether there is room for one element more, or the refusal of a queue with this letter that is full.
pub(crate) fn room(count: usize, limit: usize, letter: char) -> Result<(), PutRefusal>
    ensures { MatchResult result (λ _. count < limit) (λ refusal. (limit ≤ count) × (refusal ≡ Full letter)) }
{
    if count < limit {
        Ok(())
    } else {
        Err(PutRefusal::Full { letter })
    }
}

// How many elements are left when `k` go, or the refusal where there are fewer.
pub(crate) fn left_after(count: usize, k: usize) -> Result<usize, DropRefusal>
    ensures { MatchResult result (λ left. (k ≤ count) × (left ≡ count - k)) (λ _. count < k) }
{
    count.checked_sub(k).ok_or(DropRefusal::BeyondCount)
}
