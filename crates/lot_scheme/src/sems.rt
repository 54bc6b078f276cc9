//! The calls on a semaphore's word, under the name of the lot.
ghost use Rattle.std.specs.Prelude.{◌≡◌, ◌≤◌, [], ◌∷◌, length};
ghost use Rattle.lot_core.specs.Parts.{IsAmongSemaphores};
ghost use Rattle.lot_core.specs.Steps.{SaysMore, first as first_of};
ghost use Rattle.lot_events.specs.declared.events.Event.TheVariants.{SemPass as Passes, SemClear};
ghost use Rattle.lot_events.specs.declared.events.Seen.TheVariants.{Done, Sleeper};
ghost use Rattle.lot_rights.specs.declared.views.Access.TheVariants.{Makes};
ghost use Rattle.lot_park.specs.Parking.{Queues};
ghost use Rattle.lot_whole.specs.Standing.{IsIdle, MayWantPermit, MaySeek, MayGive};
ghost use Rattle.lot_scheme.specs.Standing.{LotStanding, adding, one_permit_less};
ghost use Rattle.lot_scheme.specs.Roots.{root_view, OwesFirst};
ghost use Rattle.lot_scheme.specs.SemCalls.{TriesPermit, TakesPermit, MarksPermit, ParksPermit, FreesPermit};

use crate::contention::Tally;
use crate::name::LotName;
use crate::pass::NamedPass;
use crate::root::NamedRoot;
use crate::scheme::LotScheme;
use lot_sems::Taken;
use lot_whole::Keeps;

impl<V: Keeps, N: LotName<V>, C: Tally> LotScheme<V, N, C> {
    /// Takes a permit where one is left, and else leaves all as it was: a look, and where that found a permit, one
    /// compare-exchange.
    #[inline(always)]
    pub fn try_take_permit(&self, pass: NamedPass<V, N>, key: usize) -> (NamedPass<V, N>, Taken)
        requires key { IsAmongSemaphores N.first_sem (length N.permits) key }
        requires idle { IsIdle pass.own }
        ensures { TriesPermit pass key result.1 result.0 }
    {
        let (pass, taken) = self.words().try_take_permit(pass.into_pass(), key);
        (NamedPass::new(pass), taken)
    }

    /// Takes a permit where one is left, as `try_take_permit` does; where the look finds none, the thread seeks one
    /// from now on.
    #[inline(always)]
    pub fn take_permit(&self, pass: NamedPass<V, N>, key: usize) -> (NamedPass<V, N>, Taken)
        requires key { IsAmongSemaphores N.first_sem (length N.permits) key }
        requires may { MayWantPermit V.above pass.own key }
        ensures { TakesPermit pass key result.1 result.0 }
    {
        let (pass, taken) = self.words().take_permit(pass.into_pass(), key);
        (NamedPass::new(pass), taken)
    }

    /// Marks a semaphore of which no permit is left as parked, by one compare-exchange, and says whether it did.
    pub fn mark_permit(&self, pass: NamedPass<V, N>, key: usize) -> (NamedPass<V, N>, bool)
        requires key { IsAmongSemaphores N.first_sem (length N.permits) key }
        requires seeks { MaySeek pass.own key }
        ensures { MarksPermit pass key result.1 result.0 }
    {
        let (pass, marked) = self.words().mark_permit(pass.into_pass(), key);
        (NamedPass::new(pass), marked)
    }

    /// Queues the thread last on the root's semaphore where no permit is left and it is marked as parked, by one load,
    /// and says whether it did: the validation of a parking, while the semaphore's bucket is locked.
    pub fn park_permit(
        &self,
        pass: NamedPass<V, N>,
        root: NamedRoot<V, N, C>,
        key: usize,
    ) -> (NamedPass<V, N>, NamedRoot<V, N, C>, bool)
        requires named { root.key ≡ key }
        requires sem { N.first_sem ≤ (root_view root).key }
        requires seeks { MaySeek pass.own (root_view root).key }
        ensures pass { ParksPermit pass (root_view root).key result.2 result.0 }
        ensures root { Queues root_view (λ (p : LotStanding V). p.thread) pass root result.2 result.0 result.1 }
    {
        let (root, tally) = root.take_up(key);
        let (pass, root, queued) = self.words().park_permit(pass.into_pass(), root);
        let tally = if queued {
            tally.queued()
        } else {
            tally.turned_back()
        };
        (
            NamedPass::new(pass),
            NamedRoot::lay_down(root, tally),
            queued,
        )
    }

    /// Gives a permit back where nobody is marked as parked, and says whether it did: a look, and where that found
    /// nobody marked, one compare-exchange. Else the thread still has the permit.
    #[inline(always)]
    pub fn free_permit(&self, pass: NamedPass<V, N>, key: usize) -> (NamedPass<V, N>, bool)
        requires key { IsAmongSemaphores N.first_sem (length N.permits) key }
        requires may { MayGive pass.own key }
        ensures { FreesPermit pass key result.1 result.0 }
    {
        let (pass, freed) = self.words().free_permit(pass.into_pass(), key);
        (NamedPass::new(pass), freed)
    }

    /// Gives a permit back, by one fetch-add, while the semaphore's bucket is locked. `first` is the first of the line,
    /// to whom the root then owes a letter; the parked bit goes where there was one and no more threads may wait.
    pub fn pass_permit(
        &self,
        pass: NamedPass<V, N>,
        root: NamedRoot<V, N, C>,
        key: usize,
        first: Option<usize>,
        more: bool,
    ) -> (NamedPass<V, N>, NamedRoot<V, N, C>)
        requires named { root.key ≡ key }
        requires sem { N.first_sem ≤ (root_view root).key }
        requires may { MayGive pass.own (root_view root).key }
        requires clear { (root_view root).owes ≡ [] }
        requires first { first_of (root_view root).line ≡ first }
        requires more { SaysMore (root_view root).line more }
        ensures pass { result.0 ≡ adding (one_permit_less pass (root_view root).key)
            (Makes (Passes pass.thread (root_view root).key more) (Sleeper first) ∷ []) }
        ensures root { OwesFirst root_view root first 0 result.1 }
    {
        let (root, tally) = root.take_up(key);
        let (pass, root) = self
            .words()
            .pass_permit(pass.into_pass(), root, first, more);
        (NamedPass::new(pass), NamedRoot::lay_down(root, tally))
    }

    /// Clears the parked bit of a semaphore in whose line nobody is, by one fetch-and, while the semaphore's bucket is
    /// locked.
    pub fn clear(
        &self,
        pass: NamedPass<V, N>,
        root: NamedRoot<V, N, C>,
        key: usize,
    ) -> (NamedPass<V, N>, NamedRoot<V, N, C>)
        requires named { root.key ≡ key }
        requires sem { N.first_sem ≤ (root_view root).key }
        requires idle { IsIdle pass.own }
        requires nobody { (root_view root).line ≡ [] }
        ensures pass { result.0 ≡ adding pass (Makes (SemClear pass.thread (root_view root).key) Done ∷ []) }
        ensures root { result.1 ≡ root }
    {
        let (root, tally) = root.take_up(key);
        let (pass, root) = self.words().clear(pass.into_pass(), root);
        (NamedPass::new(pass), NamedRoot::lay_down(root, tally))
    }

    /// The word of a semaphore just now: twice the permits that are left, and its parked bit. It is an observation, of
    /// which nothing is promised.
    #[inline(always)]
    pub fn sem_bits(&self, key: usize) -> u64
        requires { IsAmongSemaphores N.first_sem (length N.permits) key }
    {
        self.words().bits(key)
    }
}
