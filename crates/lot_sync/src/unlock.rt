//! Letting a lock go, as WTF's `Lock::unlock` does: one compare-exchange where nobody waits, else one sleeper is taken
//! from the line, and the lock is handed to it or left to whoever comes first.
ghost use Rattle.std.specs.Prelude.{◌≡◌, ◌⊎◌, ◌<◌, true, false, MatchOption, IfNone, is_none, length};
ghost use Rattle.lot_sync.specs.Lot.{◌≈◌, Owns, HasSeen, HasShape, letting_go};
ghost use Rattle.lot_sync.specs.Traces.{Adds, UnparkedTrace};
ghost use Rattle.lot_sync.specs.Values.{MayGiveBack};
ghost use Rattle.lot_sync.specs.Passes.{pass_view_of, AreTallied, IsNewOwner};
ghost use Rattle.lot_locks.specs.Released.{IsFitting, FreeTrace};
ghost use Rattle.lot_locks.specs.declared.released.Released.TheVariants.{Quiet};
ghost use Rattle.lot_words.specs.Values.{IsIn, HasSeen as OwnHasSeen};

use crate::held::Held;
use crate::lot::Lot;
use crate::pass::Pass;
use lot_locks::{LockSteps, Released, free_unparked, let_go, unpark_asking};
use lot_park::Moment;
use lot_scheme::{LotName, NamedPass, Tally};
use lot_waits::Tallies;
use lot_words::Keeps;
use std::sync::Wait;

impl<V: Keeps + Send, N: LotName<V> + Send, C: Tally + Send> Lot<V, N, C> {
    /// Lets the lock go. Where nobody is parked it is one read-modify-write of the lock's word.
    ///
    /// The moment is looked at only where somebody is parked: a caller that has to ask a clock for it calls
    /// `unlock_asking`.
    #[inline(always)]
    pub fn unlock<R: Wait>(
        &self,
        rt: &R,
        pass: Pass<V, N>,
        held: Held<V, N>,
        moment: Moment,
    ) -> (Pass<V, N>, Released)
        requires key { held.key < self.now.locks }
        requires owns { Owns pass held.key }
        requires back { MayGiveBack V.Keeps pass held }
        ensures pass { result.0 ≈ letting_go pass held.key held.value }
        ensures made { Adds pass.made (FreeTrace pass.thread held.key result.1) result.0.made }
        ensures shape { HasShape self.now result.0 }
        ensures seen { HasSeen result.0 held.key held.value }
        ensures fits { IsFitting result.1 false moment.now }
    {
        self.unlock_as(rt, pass, held, moment, false)
    }

    /// Lets the lock go, and asks for the moment only where somebody is parked, as WTF's `Lock::unlock` reads the clock
    /// there alone: `lot.unlock_asking(rt, pass, held, || now())`.
    #[inline(always)]
    pub fn unlock_asking<R: Wait, M: FnOnce() -> Moment>(
        &self,
        rt: &R,
        pass: Pass<V, N>,
        held: Held<V, N>,
        moment: M,
    ) -> (Pass<V, N>, Released)
    where
        M: Drop,
        requires key { held.key < self.now.locks }
        requires owns { Owns pass held.key }
        requires back { MayGiveBack V.Keeps pass held }
        requires callable { M.pre moment }
        ensures pass { result.0 ≈ letting_go pass held.key held.value }
        ensures made { Adds pass.made (FreeTrace pass.thread held.key result.1) result.0.made }
        ensures shape { HasShape self.now result.0 }
        ensures seen { HasSeen result.0 held.key held.value }
        ensures fits { (result.1 ≡ Quiet) ⊎ ((m : _) × M.post moment m × IsFitting result.1 false m.now) }
    {
        let key = held.key();
        let (right, tallies) = self.given_back(pass, held, key);
        let (right, freed) = LockSteps::free(self.parking().scheme(), right, key);
        let (right, released) = if freed {
            (right, Released::Quiet)
        } else {
            unpark_asking(rt, self.parking(), right, key, moment)
        };
        (self.at_rest(right, tallies), released)
    }

    /// Lets the lock go, and hands it to the first thread of its line, if any.
    #[inline(always)]
    pub fn unlock_fairly<R: Wait>(
        &self,
        rt: &R,
        pass: Pass<V, N>,
        held: Held<V, N>,
        moment: Moment,
    ) -> (Pass<V, N>, Released)
        requires key { held.key < self.now.locks }
        requires owns { Owns pass held.key }
        requires back { MayGiveBack V.Keeps pass held }
        ensures pass { result.0 ≈ letting_go pass held.key held.value }
        ensures made { Adds pass.made (FreeTrace pass.thread held.key result.1) result.0.made }
        ensures shape { HasShape self.now result.0 }
        ensures seen { HasSeen result.0 held.key held.value }
        ensures fits { IsFitting result.1 true moment.now }
    {
        self.unlock_as(rt, pass, held, moment, true)
    }

    /// Lets the lock go where nobody is parked; else the held value comes back, and the lock is still owned.
    #[inline(always)]
    pub fn unlock_unparked(
        &self,
        pass: Pass<V, N>,
        held: Held<V, N>,
    ) -> (Pass<V, N>, Option<Held<V, N>>)
        requires key { held.key < self.now.locks }
        requires owns { Owns pass held.key }
        requires back { MayGiveBack V.Keeps pass held }
        ensures freed { MatchOption result.1 (result.0 ≈ letting_go pass held.key held.value)
            (λ back. (back ≡ held) × (result.0 ≈ pass)) }
        ensures made { Adds pass.made (UnparkedTrace pass.thread held.key (is_none result.1)) result.0.made }
        ensures shape { HasShape self.now result.0 }
        ensures seen { IfNone result.1 (HasSeen result.0 held.key held.value) }
    {
        let key = held.key();
        let (right, tallies) = self.given_back(pass, held, key);
        let scheme = self.parking().scheme();
        let (right, freed) = free_unparked(scheme, right, key);
        if freed {
            (self.at_rest(right, tallies), None)
        } else {
            let (right, value) = scheme.value_out(right, key);
            (self.at_rest(right, tallies), Some(Held::new(key, value)))
        }
    }

    #[inline(always)]
    fn unlock_as<R: Wait>(
        &self,
        rt: &R,
        pass: Pass<V, N>,
        held: Held<V, N>,
        moment: Moment,
        fair: bool,
    ) -> (Pass<V, N>, Released)
        requires key { held.key < self.now.locks }
        requires owns { Owns pass held.key }
        requires back { MayGiveBack V.Keeps pass held }
        ensures pass { result.0 ≈ letting_go pass held.key held.value }
        ensures made { Adds pass.made (FreeTrace pass.thread held.key result.1) result.0.made }
        ensures shape { HasShape self.now result.0 }
        ensures seen { HasSeen result.0 held.key held.value }
        ensures fits { IsFitting result.1 fair moment.now }
    {
        let key = held.key();
        let (right, tallies) = self.given_back(pass, held, key);
        let (right, released) = let_go(rt, self.parking(), right, key, moment, fair);
        (self.at_rest(right, tallies), released)
    }

    /// The value goes back into its slot.
    #[inline(always)]
    pub(crate) fn given_back(
        &self,
        pass: Pass<V, N>,
        held: Held<V, N>,
        key: usize,
    ) -> (NamedPass<V, N>, Box<Tallies>)
        requires key { (held.key ≡ key) × (key < self.now.locks) }
        requires owns { Owns pass key }
        requires back { MayGiveBack V.Keeps pass held }
        ensures owner { IsNewOwner V.grows N.LotName result.0 key }
        ensures lies { IsIn result.0.own.locks key held.value }
        ensures grown { (u : V) → OwnHasSeen result.0.own.locks key u → V.grows u held.value }
        ensures kept { AreTallied N.locks N.conds result.0 result.1.value }
        ensures same { pass_view_of result.0 ≡ pass }
        ensures locks { key < N.locks }
    {
        prove!(self.has_lock(key));
        let (right, tallies) = pass.apart();
        let right = self
            .parking()
            .scheme()
            .value_in(right, key, held.into_value());
        (right, tallies)
    }
}
