//! Queueing on a condition, and taking threads from its line.
ghost use Rattle.std.specs.Prelude.{◌≡◌, ◌<◌, length};
ghost use Rattle.lot_core.specs.Steps.{IsCallCount, SaysMoreBehind, dequeued_count};
ghost use Rattle.lot_order.specs.Order.{MayWait};
ghost use Rattle.lot_events.specs.declared.events.Event.TheVariants.{Enlist, Look, Call, Lower, Sweep};
ghost use Rattle.lot_events.specs.declared.events.Seen.TheVariants.{Bool as Saw, Done, Count};
ghost use Rattle.lot_rights.specs.declared.views.Access.TheVariants.{Makes};
ghost use Rattle.lot_words.specs.World.{Holds};
ghost use Rattle.lot_conds.specs.Calls.{enlisted, lowering, called_more, swept_pass, enlisted_root, called_root};
ghost use Rattle.lot_conds.specs.Calls.{swept_root};
ghost use Rattle.lot_whole.specs.Family.{cond, IsKeyIn};
ghost use Rattle.lot_whole.specs.Standing.{IsIdle, MaySweep, keys_of, IsCondRoot, as_cond};
ghost use Rattle.lot_whole.specs.Calls.{NotesIn, RootIs};

use crate::kind::{LotPass, LotRoot};
use crate::words::{CLEAR, HAS_WAITERS, LotWords};
use lot_rights::word_of_key;
use lot_words::Keeps;
use std::marker::Brand;

impl<V: Keeps> LotWords<V> {
    /// Queues the thread last on the root's condition and sets its flag, by one store: the validation of WTF's
    /// `Condition::wait`, which runs while the bucket of the condition is locked. The thread has the lock, and is at
    /// the condition's bed with it then: it lets the lock go by `free`, or `free` and `pass_on`. The event is Enlist,
    /// and names the lock. What the thread has beside the lock lies below it and below the condition.
    pub fn enlist(
        &self,
        pass: LotPass<V>,
        root: LotRoot<V>,
        lock: usize,
    ) -> (LotPass<V>, LotRoot<V>)
        requires table { (pass.table ≡ self.now.table) × (root.table ≡ self.now.table) }
        requires cond { IsCondRoot root.own }
        requires idle { IsIdle pass.own }
        requires lock { (lock < self.now.size.locks) × Holds pass.own.locks lock }
        requires above { MayWait V.above (keys_of pass.own) root.key lock }
        ensures table { (result.0.table ≡ pass.table) × (result.1.table ≡ root.table) }
        ensures event { NotesIn cond pass (enlisted pass.own.conds root.key)
            (Makes (Enlist pass.thread root.key lock) Done) result.0 }
        ensures root { RootIs cond root (enlisted_root (as_cond root.own) pass.thread) result.1 }
    {
        let words = &self.words;
        let word = root.word();
        words.store_both::<Brand, usize>(pass, root, word, HAS_WAITERS, lock)
    }

    /// Whether the condition's flag is set, by one load: the fast path of WTF's `Condition::notifyOne`. Where it is
    /// clear, nobody is in the line but threads that another is about to sweep. The event is Look.
    #[inline(always)]
    pub fn look(&self, pass: LotPass<V>, key: usize) -> (LotPass<V>, bool)
        requires table { pass.table ≡ self.now.table }
        requires key { IsKeyIn self.now.size cond key }
        requires idle { IsIdle pass.own }
        ensures table { result.0.table ≡ pass.table }
        ensures event { NotesIn cond pass pass.own.conds
            (Makes (Look pass.thread key) (Saw result.1)) result.0 }
    {
        let words = &self.words;
        let (pass, found) = words.load::<Brand, usize>(pass, word_of_key(key), key);
        (pass, found == HAS_WAITERS)
    }

    /// Clears the condition's flag, by one store: the first step of WTF's `Condition::notifyAll`, which locks no
    /// bucket. `sweep` has to follow. The event is Lower.
    pub fn lower(&self, pass: LotPass<V>, key: usize) -> LotPass<V>
        requires table { pass.table ≡ self.now.table }
        requires key { IsKeyIn self.now.size cond key }
        requires idle { IsIdle pass.own }
        ensures table { result.table ≡ pass.table }
        ensures event { NotesIn cond pass (lowering pass.own.conds key)
            (Makes (Lower pass.thread key) Done) result }
    {
        let words = &self.words;
        words.store::<Brand, usize>(pass, word_of_key(key), CLEAR, key)
    }

    /// Takes the first `count` threads of the condition's line, or all where they are fewer, by one access, while the
    /// bucket of the condition is locked: the callback of WTF's `Condition::notifyOne`, for one or several. `taken`
    /// is how many they are. Where more threads may wait the flag stays, by one load; else, and where nobody was in
    /// the line, one store clears it. The root then owes each of those threads a letter. The event is Call.
    ///
    /// Where more than `count` threads are in the line, `more` has to be true.
    pub fn call(
        &self,
        pass: LotPass<V>,
        root: LotRoot<V>,
        count: usize,
        taken: usize,
        more: bool,
    ) -> (LotPass<V>, LotRoot<V>)
        requires table { (pass.table ≡ self.now.table) × (root.table ≡ self.now.table) }
        requires cond { IsCondRoot root.own }
        requires idle { IsIdle pass.own }
        requires count { IsCallCount count }
        requires taken { dequeued_count count (as_cond root.own).line ≡ taken }
        requires more { SaysMoreBehind count (as_cond root.own).line more }
        ensures table { (result.0.table ≡ pass.table) × (result.1.table ≡ root.table) }
        ensures event { NotesIn cond pass (called_more pass.own.conds root.key taken)
            (Makes (Call pass.thread root.key count more) (Count taken)) result.0 }
        ensures root { RootIs cond root (called_root (as_cond root.own) count) result.1 }
    {
        let words = &self.words;
        let word = root.word();
        if more && taken > 0 {
            let (pass, root, _) = words.load_both::<Brand, (usize, bool)>(
                pass,
                root,
                word,
                (count, more),
            );
            (pass, root)
        } else {
            words.store_both::<Brand, (usize, bool)>(pass, root, word, CLEAR, (count, more))
        }
    }

    /// Takes all threads of the condition's line, by one load, while the bucket of the condition is locked: the
    /// second step of WTF's `Condition::notifyAll`. `taken` is how many they are. The root then owes each of them a
    /// letter. The event is Sweep.
    pub fn sweep(
        &self,
        pass: LotPass<V>,
        root: LotRoot<V>,
        taken: usize,
    ) -> (LotPass<V>, LotRoot<V>)
        requires table { (pass.table ≡ self.now.table) × (root.table ≡ self.now.table) }
        requires cond { IsCondRoot root.own }
        requires lowered { MaySweep pass.own root.key }
        requires taken { length (as_cond root.own).line ≡ taken }
        ensures table { (result.0.table ≡ pass.table) × (result.1.table ≡ root.table) }
        ensures event { NotesIn cond pass (swept_pass pass.own.conds root.key taken)
            (Makes (Sweep pass.thread root.key) (Count taken)) result.0 }
        ensures root { RootIs cond root (swept_root (as_cond root.own)) result.1 }
    {
        let words = &self.words;
        let word = root.word();
        let (pass, root, _) = words.load_both::<Brand, ()>(pass, root, word, ());
        (pass, root)
    }
}
