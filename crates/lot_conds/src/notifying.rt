//! Taking threads from a condition's line.
ghost use Rattle.std.specs.Prelude.{◌≡◌, length, None, Some};
ghost use Rattle.lot_core.specs.Steps.{IsCallCount, SaysMoreBehind, dequeued_count};
ghost use Rattle.lot_core.specs.Parts.{IsAmongConds};
ghost use Rattle.lot_events.specs.declared.events.Event.TheVariants.{Look, Call, Lower, Sweep};
ghost use Rattle.lot_events.specs.declared.events.Seen.TheVariants.{Bool as Saw, Done, Count};
ghost use Rattle.lot_rights.specs.declared.views.Access.TheVariants.{Makes};
ghost use Rattle.lot_rights.specs.Steps.{Notes};
ghost use Rattle.lot_conds.specs.Calls.{IsCalm, lowering, called_more, called_root, swept_pass, swept_root};

use crate::kind::{CondPass, CondRoot};
use crate::words::{CLEAR, CondWords, HAS_WAITERS};
use lot_rights::word_of_key;
use std::marker::Brand;

impl CondWords {
    /// Whether the condition's flag is set, by one load: the fast path of WTF's `Condition::notifyOne`. Where it is
    /// clear, nobody is in the line but threads that another is about to sweep. The event is Look.
    #[inline(always)]
    pub fn look(&self, pass: CondPass, key: usize) -> (CondPass, bool)
        requires table { pass.table ≡ self.now.table }
        requires key { IsAmongConds self.now.size.locks self.now.size.conds key }
        requires calm { IsCalm pass.own }
        ensures table { result.0.table ≡ pass.table }
        ensures event { Notes pass pass.own (Makes (Look pass.thread key) (Saw result.1)) result.0 }
    {
        let words = &self.words;
        let (pass, found) = words.load::<Brand, usize>(pass, word_of_key(key), key);
        (pass, found == HAS_WAITERS)
    }

    /// Clears the condition's flag, by one store: the first step of WTF's `Condition::notifyAll`, which locks no
    /// bucket. `sweep` has to follow. The event is Lower.
    pub fn lower(&self, pass: CondPass, key: usize) -> CondPass
        requires table { pass.table ≡ self.now.table }
        requires key { IsAmongConds self.now.size.locks self.now.size.conds key }
        requires calm { IsCalm pass.own }
        ensures table { result.table ≡ pass.table }
        ensures event { Notes pass (lowering pass.own key)
            (Makes (Lower pass.thread key) Done) result }
    {
        let words = &self.words;
        words.store::<Brand, usize>(pass, word_of_key(key), CLEAR, key)
    }

    /// Takes the first `count` threads of the condition's line, or all where they are fewer, by one access, while the
    /// bucket of the condition is locked: the callback of WTF's `Condition::notifyOne`, for one or several. `taken` is
    /// how many they are. Where more threads may wait the flag stays, by one load; else, and where nobody was in the
    /// line, one store clears it. The root then owes each of those threads a letter. The event is Call.
    ///
    /// Where more than `count` threads are in the line, `more` has to be true.
    pub fn call(
        &self,
        pass: CondPass,
        root: CondRoot,
        count: usize,
        taken: usize,
        more: bool,
    ) -> (CondPass, CondRoot)
        requires table { (pass.table ≡ self.now.table) × (root.table ≡ self.now.table) }
        requires calm { IsCalm pass.own }
        requires count { IsCallCount count }
        requires taken { dequeued_count count root.own.line ≡ taken }
        requires more { SaysMoreBehind count root.own.line more }
        ensures table { (result.0.table ≡ pass.table) × (result.1.table ≡ root.table) }
        ensures event { Notes pass (called_more pass.own root.key taken)
            (Makes (Call pass.thread root.key count more) (Count taken)) result.0 }
        ensures root { result.1 ≡ record root { own = called_root root.own count } }
    {
        let words = &self.words;
        let word = root.word();
        if more && taken > 0 {
            let (pass, root, _) = words.load_both::<Brand, (usize, bool)>(
                pass,
                root,
                word,
                (count, more),
            );
            (pass, root)
        } else {
            words.store_both::<Brand, (usize, bool)>(pass, root, word, CLEAR, (count, more))
        }
    }

    /// Takes all threads of the condition's line, by one load, while the bucket of the condition is locked: the second
    /// step of WTF's `Condition::notifyAll`. `taken` is how many they are. The root then owes each of them a letter.
    /// The event is Sweep.
    pub fn sweep(&self, pass: CondPass, root: CondRoot, taken: usize) -> (CondPass, CondRoot)
        requires table { (pass.table ≡ self.now.table) × (root.table ≡ self.now.table) }
        requires lowered { (pass.own.out ≡ None) × (pass.own.sweeps ≡ Some root.key) }
        requires taken { length root.own.line ≡ taken }
        ensures table { (result.0.table ≡ pass.table) × (result.1.table ≡ root.table) }
        ensures event { Notes pass (swept_pass pass.own root.key taken)
            (Makes (Sweep pass.thread root.key) (Count taken)) result.0 }
        ensures root { result.1 ≡ record root { own = swept_root root.own } }
    {
        let words = &self.words;
        let word = root.word();
        let (pass, root, _) = words.load_both::<Brand, ()>(pass, root, word, ());
        (pass, root)
    }
}
