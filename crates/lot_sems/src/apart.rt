//! Two passes of one table are of two threads, and have together no more permits than there are.
ghost use Rattle.std.specs.Prelude.{◌≡◌, ◌≢◌, ℕ, ◌+◌, ◌≤◌, slice_index};
ghost use Rattle.lot_sems.specs.World.{permits_of};

use crate::kind::SemPass;
use crate::words::SemWords;
use std::marker::Brand;

impl SemWords {
    /// Gives both passes back as they were. The point is what it proves: of each semaphore, the permits that both have
    /// are together at most as many as at the opening.
    pub fn check_permits(&self, first: SemPass, second: SemPass) -> (SemPass, SemPass)
        requires table { (first.table ≡ self.now.table) × (second.table ≡ self.now.table) }
        ensures same { (result.0 ≡ first) × (result.1 ≡ second) }
        ensures threads { first.thread ≢ second.thread }
        ensures permits { (k : ℕ) → slice_index first.own.out k + slice_index second.own.out k
            ≤ permits_of self.now.size k }
    {
        let words = &self.words;
        words.check_two::<Brand>(first, second)
    }
}
