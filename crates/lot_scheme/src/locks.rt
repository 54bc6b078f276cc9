//! The calls of locks, under the lot's name: each says what it makes of how the pass stands.
ghost use Rattle.std.specs.Prelude.{true, false, ◌≡◌, ◌≢◌, ℕ, ◌<◌, [], ◌∷◌, MatchBool, None};
ghost use Rattle.lot_bucket.specs.Queue.{first_of};
ghost use Rattle.lot_core.specs.Steps.{SaysMore};
ghost use Rattle.lot_events.specs.declared.events.Event.TheVariants.{Try, Take, Mark, Park, Free, Pass};
ghost use Rattle.lot_events.specs.declared.events.Seen.TheVariants.{Bool as Saw, Done, Sleeper};
ghost use Rattle.lot_rights.specs.declared.views.Access.TheVariants.{Makes, Finds};
ghost use Rattle.lot_words.specs.World.{Holds, HoldsParked};
ghost use Rattle.lot_words.specs.Values.{IsIn, IsOut, HasSeen, MayBecome};
ghost use Rattle.lot_words.specs.Calls.{token_of};
ghost use Rattle.lot_words.specs.declared.views.Place.TheVariants.{InSlot, Out};
ghost use Rattle.lot_whole.specs.Standing.{IsIdle, MayTake, MayWant, MayLetGo, MayLineUp};
ghost use Rattle.lot_park.specs.Parking.{Queues};
ghost use Rattle.lot_scheme.specs.Roots.{root_view, OwesFirst};
ghost use Rattle.lot_scheme.specs.Standing.{LotStanding, adding, wanting, dozing, finding_parked, placing};
ghost use Rattle.lot_scheme.specs.LockCalls.{GetsLock, FreesLock};

use crate::contention::Tally;
use crate::name::LotName;
use crate::pass::NamedPass;
use crate::root::NamedRoot;
use crate::scheme::LotScheme;
use lot_whole::Keeps;

impl<V: Keeps, N: LotName<V>, C: Tally> LotScheme<V, N, C> {
    /// The bits of the lock's word as they were just now. Nothing is promised of them.
    #[inline(always)]
    pub fn lock_bits(&self, key: usize) -> u64
        requires { key < N.locks }
    {
        self.words().bits(key)
    }

    /// Gets the lock where nobody owns it and nobody is marked as parked, by one compare-exchange. Else the pass stands
    /// as before. The answer is the word as it was: 0 where the lock is got.
    #[tactic(auto, using(crate::proofs::LockNotes::took_free, crate::proofs::LockNotes::found_it))]
    #[inline(always)]
    pub fn take_free(&self, pass: NamedPass<V, N>, key: usize) -> (NamedPass<V, N>, u64)
        requires key { key < N.locks }
        requires may { MayTake pass.own key }
        ensures got { result.1 ≡ 0 → GetsLock V.Keeps pass key (Makes (Take pass.thread key) (Saw true)) result.0 }
        ensures missed { result.1 ≢ 0 → result.0 ≡ adding pass (Finds pass.thread key result.1 ∷ []) }
    {
        let (pass, found) = self.words().take_free(pass.into_pass(), key);
        (NamedPass::new(pass), found)
    }

    /// Gets the lock where nobody owns it, and wants it else.
    #[tactic(auto, using(crate::proofs::LockNotes::took))]
    pub fn take(&self, pass: NamedPass<V, N>, key: usize) -> (NamedPass<V, N>, bool)
        requires key { key < N.locks }
        requires may { MayWant V.above pass.own key }
        ensures { MatchBool result.1
            (GetsLock V.Keeps pass key (Makes (Take pass.thread key) (Saw true)) result.0)
            (result.0 ≡ adding (wanting pass key) (Makes (Take pass.thread key) (Saw false) ∷ [])) }
    {
        let (pass, got) = self.words().take(pass.into_pass(), key);
        (NamedPass::new(pass), got)
    }

    /// Gets the lock where nobody owns it, also past its sleepers. Else the pass stands as before.
    #[tactic(auto, using(crate::proofs::LockNotes::tried))]
    #[inline(always)]
    pub fn try_take(&self, pass: NamedPass<V, N>, key: usize) -> (NamedPass<V, N>, bool)
        requires key { key < N.locks }
        requires idle { IsIdle pass.own }
        ensures { MatchBool result.1
            (GetsLock V.Keeps pass key (Makes (Try pass.thread key) (Saw true)) result.0)
            (result.0 ≡ adding pass (Makes (Try pass.thread key) (Saw false) ∷ [])) }
    {
        let (pass, got) = self.words().try_take(pass.into_pass(), key);
        (NamedPass::new(pass), got)
    }

    /// Marks the lock as parked where it is held and not marked, and says whether it did.
    #[tactic(auto, using(crate::proofs::LockNotes::marked))]
    pub fn mark(&self, pass: NamedPass<V, N>, key: usize) -> (NamedPass<V, N>, bool)
        requires key { key < N.locks }
        requires may { MayLineUp pass.own key }
        ensures { MatchBool result.1
            (result.0 ≡ adding pass (Makes (Mark pass.thread key) Done ∷ []))
            ((word : ℕ) × (word ≢ 1) × (result.0 ≡ adding pass (Finds pass.thread key word ∷ []))) }
    {
        let (pass, marked) = self.words().mark(pass.into_pass(), key);
        (NamedPass::new(pass), marked)
    }

    /// Queues the thread last in the lock's line where the lock is held and marked as parked, and says whether it did.
    #[tactic(auto, using(crate::proofs::LockNotes::parked_laws))]
    pub fn park(
        &self,
        pass: NamedPass<V, N>,
        root: NamedRoot<V, N, C>,
        key: usize,
    ) -> (NamedPass<V, N>, NamedRoot<V, N, C>, bool)
        requires named { root.key ≡ key }
        requires key { root.key < N.locks }
        requires may { MayLineUp pass.own root.key }
        ensures pass { MatchBool result.2
            (result.0 ≡ adding (dozing pass) (Makes (Park pass.thread root.key) (Saw true) ∷ []))
            (result.0 ≡ adding pass (Makes (Park pass.thread root.key) (Saw false) ∷ [])) }
        ensures root { Queues root_view (λ (p : LotStanding V). p.thread) pass root result.2 result.0 result.1 }
    {
        let (root, tally) = root.take_up(key);
        let (pass, root, queued) = self.words().park(pass.into_pass(), root);
        let tally = if queued {
            tally.queued()
        } else {
            tally.turned_back()
        };
        (
            NamedPass::new(pass),
            NamedRoot::lay_down(root, tally),
            queued,
        )
    }

    /// Lets the lock go where nobody is marked as parked on it, by one compare-exchange, and says whether it did. Else
    /// it was found parked, and is owned still.
    #[tactic(auto, using(crate::proofs::LockNotes::freed))]
    #[inline(always)]
    pub fn free(&self, pass: NamedPass<V, N>, key: usize) -> (NamedPass<V, N>, bool)
        requires key { key < N.locks }
        requires may { MayLetGo pass.own key }
        requires holds { Holds pass.own.locks key }
        requires lies { (y : V) × IsIn pass.own.locks key y }
        ensures { MatchBool result.1
            (FreesLock pass key (Makes (Free pass.thread key) (Saw true)) result.0)
            (result.0 ≡ adding (finding_parked pass key) (Makes (Free pass.thread key) (Saw false) ∷ [])) }
    {
        let (pass, freed) = self.words().free(pass.into_pass(), key);
        (NamedPass::new(pass), freed)
    }

    /// Passes on a lock that `free` found parked, while its bucket is locked: to the first of its line where this is
    /// fair, and else to whoever comes first. The root then owes the first a letter.
    #[tactic(auto, using(crate::proofs::LockNotes::passed_laws))]
    pub fn pass_on(
        &self,
        pass: NamedPass<V, N>,
        root: NamedRoot<V, N, C>,
        key: usize,
        first: Option<usize>,
        fair: bool,
        more: bool,
    ) -> (NamedPass<V, N>, NamedRoot<V, N, C>)
        requires named { root.key ≡ key }
        requires key { root.key < N.locks }
        requires may { MayLetGo pass.own root.key }
        requires holds { HoldsParked pass.own.locks root.key }
        requires lies { (y : V) × IsIn pass.own.locks root.key y }
        requires first { (first_of (root_view root).line ≡ first) × ((root_view root).owes ≡ []) }
        requires more { fair ≡ false → SaysMore (root_view root).line more }
        requires fair { first ≡ None → fair ≡ false }
        ensures pass { FreesLock pass root.key
            (Makes (Pass pass.thread root.key fair more) (Sleeper first)) result.0 }
        ensures root { OwesFirst root_view root first (token_of fair) result.1 }
    {
        let (root, tally) = root.take_up(key);
        let (pass, root) = self
            .words()
            .pass_on(pass.into_pass(), root, first, fair, more);
        (NamedPass::new(pass), NamedRoot::lay_down(root, tally))
    }

    /// The owner takes the value out of the lock's slot.
    #[inline(always)]
    pub fn value_out(&self, pass: NamedPass<V, N>, key: usize) -> (NamedPass<V, N>, V)
        requires key { key < N.locks }
        requires holds { Holds pass.own.locks key }
        requires lies { (y : V) × IsIn pass.own.locks key y }
        ensures out { result.0 ≡ placing pass key Out }
        ensures value { IsIn pass.own.locks key result.1 }
    {
        let (pass, value) = self.words().value_out(pass.into_pass(), key);
        (NamedPass::new(pass), value)
    }

    /// The owner puts a value into the lock's slot.
    #[inline(always)]
    pub fn value_in(&self, pass: NamedPass<V, N>, key: usize, value: V) -> NamedPass<V, N>
        requires key { key < N.locks }
        requires holds { Holds pass.own.locks key × IsOut pass.own.locks key }
        requires lawful { (x : V) × HasSeen pass.own.locks key x × MayBecome V.Keeps key pass.thread x value }
        ensures { result ≡ placing pass key (InSlot value) }
    {
        NamedPass::new(self.words().value_in(pass.into_pass(), key, value))
    }
}
