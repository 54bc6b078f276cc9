//! The calls on a condition's word, under the name of the lot: each says what it makes of how the pass stands.
ghost use Rattle.std.specs.Prelude.{◌≡◌, ◌<◌, ◌≤◌, [], ◌∷◌, length};
ghost use Rattle.lot_core.specs.Steps.{IsCallCount, SaysMoreBehind, dequeued_count};
ghost use Rattle.lot_order.specs.Order.{MayWait};
ghost use Rattle.lot_events.specs.declared.events.Event.TheVariants.{Enlist, Look, Call, Lower, Sweep};
ghost use Rattle.lot_events.specs.declared.events.Seen.TheVariants.{Bool as Saw, Done, Count};
ghost use Rattle.lot_rights.specs.declared.views.Access.TheVariants.{Makes};
ghost use Rattle.lot_words.specs.World.{Holds};
ghost use Rattle.lot_conds.specs.Calls.{enlisted_root, called_root, swept_root};
ghost use Rattle.lot_whole.specs.Standing.{IsIdle, MaySweep, keys_of, as_cond};
ghost use Rattle.lot_scheme.specs.Roots.{root_view};
ghost use Rattle.lot_scheme.specs.Standing.{adding, enlisted, called_more, setting_out, swept};
ghost use Rattle.lot_scheme.specs.CondCalls.{IsCondNow};

use crate::contention::Tally;
use crate::name::LotName;
use crate::pass::NamedPass;
use crate::root::NamedRoot;
use crate::scheme::LotScheme;
use lot_whole::Keeps;

impl<V: Keeps, N: LotName<V>, C: Tally> LotScheme<V, N, C> {
    /// Queues the thread last on the root's condition and sets its flag, by one store, while the condition's bucket is
    /// locked. The thread has the lock, and is at the condition's bed with it then: it lets the lock go by `free`, or
    /// `free` and `pass_on`.
    #[tactic(auto, using(crate::proofs::CondNotes::enlists, crate::proofs::CondNotes::cond_root))]
    pub fn enlist(
        &self,
        pass: NamedPass<V, N>,
        root: NamedRoot<V, N, C>,
        key: usize,
        lock: usize,
    ) -> (NamedPass<V, N>, NamedRoot<V, N, C>)
        requires named { root.key ≡ key }
        requires key { (N.locks ≤ root.key) × (root.key < N.first_sem) }
        requires idle { IsIdle pass.own }
        requires lock { (lock < N.locks) × Holds pass.own.locks lock }
        requires above { MayWait V.above (keys_of pass.own) root.key lock }
        ensures pass { result.0 ≡ adding (enlisted pass root.key lock)
            (Makes (Enlist pass.thread root.key lock) Done ∷ []) }
        ensures root { IsCondNow root (enlisted_root (as_cond root.own) pass.thread) result.1 }
    {
        let (root, tally) = root.take_up(key);
        let (pass, root) = self.words().enlist(pass.into_pass(), root, lock);
        (
            NamedPass::new(pass),
            NamedRoot::lay_down(root, tally.queued()),
        )
    }

    /// Whether the condition's flag is set, by one load. Where it is clear, nobody is in the line but threads that
    /// another is about to sweep.
    #[tactic(auto, using(crate::proofs::CondNotes::looks))]
    #[inline(always)]
    pub fn look(&self, pass: NamedPass<V, N>, key: usize) -> (NamedPass<V, N>, bool)
        requires key { (N.locks ≤ key) × (key < N.first_sem) }
        requires idle { IsIdle pass.own }
        ensures { result.0 ≡ adding pass (Makes (Look pass.thread key) (Saw result.1) ∷ []) }
    {
        let (pass, waits) = self.words().look(pass.into_pass(), key);
        (NamedPass::new(pass), waits)
    }

    /// Clears the condition's flag, by one store. No bucket has to be locked; `sweep` has to follow.
    #[tactic(auto, using(crate::proofs::CondNotes::lowers))]
    pub fn lower(&self, pass: NamedPass<V, N>, key: usize) -> NamedPass<V, N>
        requires key { (N.locks ≤ key) × (key < N.first_sem) }
        requires idle { IsIdle pass.own }
        ensures { result ≡ adding (setting_out pass key) (Makes (Lower pass.thread key) Done ∷ []) }
    {
        NamedPass::new(self.words().lower(pass.into_pass(), key))
    }

    /// Takes the first `count` threads of the condition's line, or all where they are fewer, by one access, while the
    /// condition's bucket is locked; `taken` is how many they are. The flag stays where more may wait. The root then
    /// owes each of those threads a letter.
    ///
    /// Where more than `count` threads are in the line, `more` has to be true.
    #[tactic(auto, using(crate::proofs::CondNotes::calls, crate::proofs::CondNotes::cond_root))]
    pub fn call(
        &self,
        pass: NamedPass<V, N>,
        root: NamedRoot<V, N, C>,
        key: usize,
        count: usize,
        taken: usize,
        more: bool,
    ) -> (NamedPass<V, N>, NamedRoot<V, N, C>)
        requires named { root.key ≡ key }
        requires key { (N.locks ≤ root.key) × (root.key < N.first_sem) }
        requires idle { IsIdle pass.own }
        requires count { IsCallCount count }
        requires taken { dequeued_count count (root_view root).line ≡ taken }
        requires more { SaysMoreBehind count (root_view root).line more }
        ensures pass { result.0 ≡ adding (called_more pass root.key taken)
            (Makes (Call pass.thread root.key count more) (Count taken) ∷ []) }
        ensures root { IsCondNow root (called_root (as_cond root.own) count) result.1 }
    {
        let (root, tally) = root.take_up(key);
        let (pass, root) = self
            .words()
            .call(pass.into_pass(), root, count, taken, more);
        (NamedPass::new(pass), NamedRoot::lay_down(root, tally))
    }

    /// Takes all threads of the condition's line, by one load, while the condition's bucket is locked, after `lower`
    /// has cleared the flag; `taken` is how many they are. The root then owes each of them a letter.
    #[tactic(auto, using(crate::proofs::CondNotes::sweeps, crate::proofs::CondNotes::cond_root))]
    pub fn sweep(
        &self,
        pass: NamedPass<V, N>,
        root: NamedRoot<V, N, C>,
        key: usize,
        taken: usize,
    ) -> (NamedPass<V, N>, NamedRoot<V, N, C>)
        requires named { root.key ≡ key }
        requires key { (N.locks ≤ root.key) × (root.key < N.first_sem) }
        requires lowered { MaySweep pass.own root.key }
        requires taken { length (root_view root).line ≡ taken }
        ensures pass { result.0 ≡ adding (swept pass root.key taken)
            (Makes (Sweep pass.thread root.key) (Count taken) ∷ []) }
        ensures root { IsCondNow root (swept_root (as_cond root.own)) result.1 }
    {
        let (root, tally) = root.take_up(key);
        let (pass, root) = self.words().sweep(pass.into_pass(), root, taken);
        (NamedPass::new(pass), NamedRoot::lay_down(root, tally))
    }
}
