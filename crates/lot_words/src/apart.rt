//! Two passes of one table are of two threads, and no lock is held by both.
ghost use Rattle.std.specs.Prelude.{◌≡◌, ◌≢◌, ℕ};
ghost use Rattle.lot_words.specs.World.{Holds};

use crate::keeps::Keeps;
use crate::kind::LockPass;
use crate::words::LockWords;
use std::marker::Brand;

impl<V: Keeps> LockWords<V> {
    /// Gives both passes back as they were. The point is what it proves: at most one pass holds a lock, and a thread
    /// has one pass.
    pub fn check_apart(&self, first: LockPass<V>, second: LockPass<V>) -> (LockPass<V>, LockPass<V>)
        requires table { (first.table ≡ self.now.table) × (second.table ≡ self.now.table) }
        ensures same { (result.0 ≡ first) × (result.1 ≡ second) }
        ensures threads { first.thread ≢ second.thread }
        ensures locks { (l : ℕ) → Holds first.own l → ¬ Holds second.own l }
    {
        let words = &self.words;
        words.check_two::<Brand>(first, second)
    }
}
