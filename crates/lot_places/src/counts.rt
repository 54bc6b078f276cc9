ghost use Rattle.std.specs.Prelude.{◌≡◌, ℕ, ◌+◌, ◌-◌, ◌<◌, ◌↔◌, List, [], ◌∷◌, ◌++◌, length, remove, slice_index, IsTrue};
ghost use Rattle.std.specs.Prelude.{IsSome, IfOk, IfSome, replicate};
ghost use Rattle.lot_places.specs.Links.{times};
ghost use Rattle.lot_places.specs.Counted.{AreCounted, with_count};

use std::alloc::{AllocError, Global};
use std::marker::Model;

/// The count that says no more than that there may be so many. It stays.
const TOO_MANY: u8 = 255;

/// How often each thread stands in a list, for those whose numbers lie below a bound. A count is a byte: a thread is
/// queued once at a time, and of one that was queued 255 times at once nothing is known.
#[derive(Drop)]
pub struct Counts {
    counts: Vec<u8>,
}

impl Model for Counts {
    ghost use Rattle.std.specs.Prelude.{ℕ, List};

    ghost Value = { List ℕ };

    ghost view = { λ c. c.counts.items };
}

impl Counts {
    /// The counts of an empty list. No later call takes memory.
    pub fn new(alloc: Global, bound: usize) -> Result<Counts, AllocError>
        ensures counted { IfOk result (λ counts. AreCounted counts []) }
        ensures bound { IfOk result (λ counts. length counts ≡ bound) }
        ensures none { IfOk result (λ counts. counts ≡ replicate bound 0) }
    {
        let counts = vec![in alloc; 0; bound]?;
        Ok(Counts { counts })
    }

    /// No counts. They take no memory.
    pub fn hollow(alloc: Global) -> Counts
        ensures { result ≡ [] }
    {
        Counts {
            counts: Vec::new(alloc),
        }
    }

    // Whether the count of the thread is one.
    fn tells_of(&self, thread: usize) -> bool
        ensures { IsTrue result ↔ (thread < length self.now) × (slice_index self.now thread < TOO_MANY) }
    {
        thread < self.counts.len() && self.counts[thread] < TOO_MANY
    }

    /// Whether the thread stands in the list, where its count can tell.
    pub fn has(&self, thread: usize) -> Option<bool>
        ensures has { (threads : List ℕ) → AreCounted self.now threads
            → IfSome result (λ has. IsTrue has ↔ 0 < times thread threads) }
        ensures tells { thread < length self.now → slice_index self.now thread < TOO_MANY → IsSome result }
    {
        let count = *self.counts.get(thread)?;
        (count < TOO_MANY).then_some(count > 0)
    }

    /// Counts a thread that comes last.
    pub fn count_in(&mut self, thread: usize)
        ensures counted { (threads : List ℕ) → AreCounted self.old threads
            → AreCounted self.new (threads ++ thread ∷ []) }
        ensures bound { length self.new ≡ length self.old }
        ensures one { self.new ≡ with_count (λ n. n + 1) thread self.old }
    {
        if self.tells_of(thread) {
            self.counts[thread] += 1;
        }
    }

    /// Counts a thread out that is taken from its place in the list.
    pub fn count_out(&mut self, thread: usize)
        ensures counted { (threads : List ℕ) (i : ℕ) → AreCounted self.old threads → i < length threads
            → slice_index threads i ≡ thread → AreCounted self.new (remove threads i) }
        ensures bound { length self.new ≡ length self.old }
        ensures one { self.new ≡ with_count (λ n. n - 1) thread self.old }
    {
        if self.tells_of(thread) {
            let count = &mut self.counts[thread];
            *count = count.saturating_sub(1);
        }
    }
}
