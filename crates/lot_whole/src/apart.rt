//! What rights prove by being there. Two passes of one table are of two threads: no lock is held by both, and they have
//! together no more permits than there are. A root has what the history has of its key.
ghost use Rattle.std.specs.Prelude.{◌≡◌, ◌≢◌, ℕ, ◌+◌, ◌<◌, ◌≤◌, slice_index};
ghost use Rattle.lot_rights.specs.Steps.{Moment, Notes};
ghost use Rattle.lot_words.specs.World.{Holds};
ghost use Rattle.lot_whole.specs.Family.{key_count};
ghost use Rattle.lot_whole.specs.Closing.{permits_of};
ghost use Rattle.lot_whole.specs.Both.{KnowBoth};
ghost use Rattle.lot_whole.specs.Lot.{owed_by};
ghost use Rattle.lot_whole.specs.Calls.{counting};
ghost use Rattle.lot_whole.specs.Shown.{lot_of};

use crate::kind::{LotLyingRoot, LotPass, LotRoot};
use crate::words::LotWords;
use lot_rights::{Lying, word_of_key};
use lot_words::Keeps;
use std::marker::Brand;

impl<V: Keeps> LotWords<V> {
    /// Gives both passes back as they were. The point is what it proves: at most one pass holds a lock, the permits
    /// that both have are together at most as many as at the opening, a thread has one pass, and of each lock both know
    /// of one value.
    pub fn check_apart(&self, first: LotPass<V>, second: LotPass<V>) -> (LotPass<V>, LotPass<V>)
        requires table { (first.table ≡ self.now.table) × (second.table ≡ self.now.table) }
        ensures same { (result.0 ≡ first) × (result.1 ≡ second) }
        ensures threads { first.thread ≢ second.thread }
        ensures locks { (l : ℕ) → Holds first.own.locks l → ¬ Holds second.own.locks l }
        ensures permits { (k : ℕ) → slice_index first.own.sems.out k + slice_index second.own.sems.out k ≤
            permits_of self.now.size k }
        ensures values { (l : ℕ) → l < self.now.size.locks
            → KnowBoth V.Keeps l first.thread second.thread first.own.locks second.own.locks }
    {
        let words = &self.words;
        words.check_two::<Brand>(first, second)
    }

    /// Gives the root back as it was. The point is what it proves: at a moment of this call the table's history had of
    /// this key exactly the root's entries.
    pub fn check_root(&self, root: LotLyingRoot<V>) -> LotLyingRoot<V>
        requires table { root.table ≡ self.now.table }
        ensures same { result ≡ root }
        ensures moment { Moment (lot_of V.Keeps self.now) root }
    {
        let words = &self.words;
        words.check_root::<Brand, Lying>(root)
    }

    /// Counts, by one load, where everybody who was taken from the root's line has been told so: the pass shows an
    /// entry that tells what the history had of the root's key by then, and how many were in its line. Nothing else
    /// changes.
    pub fn count(&self, pass: LotPass<V>, root: LotRoot<V>) -> (LotPass<V>, LotRoot<V>)
        requires table { (pass.table ≡ self.now.table) × (root.table ≡ self.now.table) }
        requires clear { owed_by root.own ≡ 0 }
        ensures table { result.0.table ≡ pass.table }
        ensures entry { Notes pass pass.own (counting pass.thread root) result.0 }
        ensures same { result.1 ≡ root }
    {
        let words = &self.words;
        let word = root.word();
        let (pass, root, _) = words.load_both::<Brand, ()>(pass, root, word, ());
        (pass, root)
    }

    /// The word of a key as it was just now: a lock's bits, a condition's flag, or twice the permits that a semaphore
    /// has left and its parked bit. It is an observation, of which nothing is promised.
    #[inline(always)]
    pub fn bits(&self, key: usize) -> u64
        requires { key < key_count self.now.size }
    {
        self.words.peek(word_of_key(key))
    }
}
