//! Getting a lock, as WTF's `Lock::lock` does: one compare-exchange, a few yields, and then the line.
ghost use Rattle.std.specs.Prelude.{◌≡◌, ◌<◌, ◌⊎◌, MatchOption, is_some};
ghost use Rattle.lot_order.specs.Order.{AllBelow};
ghost use Rattle.lot_locks.specs.Standing.{letters_in};
ghost use Rattle.lot_scheme.specs.Traces.{TryTrace, GetTrace};
ghost use Rattle.lot_sync.specs.Lot.{◌≈◌, Owns, HasShape, keys_of};
ghost use Rattle.lot_sync.specs.Traces.{Adds};
ghost use Rattle.lot_sync.specs.Values.{Gets};
ghost use Rattle.lot_sync.specs.Passes.{pass_view_of, AreTallied, IsNewOwner};
ghost use Rattle.lot_words.specs.Values.{IsIn};

use crate::held::Held;
use crate::lot::Lot;
use crate::pass::Pass;
use lot_locks::{get, get_free, get_slowly, try_get};
use lot_park::{AtOnce, BeforeSleep};
use lot_scheme::{LotName, NamedPass, Tally};
use lot_waits::Tallies;
use lot_words::{Keeps, UNHELD};
use std::sync::Wait;

impl<V: Keeps + Send, N: LotName<V> + Send, C: Tally + Send> Lot<V, N, C> {
    /// Gets the lock where nobody owns it, and else leaves all as it was. Where nobody owns it and nobody is parked, it
    /// is one read-modify-write of the lock's word, and else two.
    #[inline(always)]
    pub fn try_lock(&self, pass: Pass<V, N>, key: usize) -> (Pass<V, N>, Option<Held<V, N>>)
        requires key { key < self.now.locks }
        requires not_owned { ¬ Owns pass key }
        ensures gets { MatchOption result.1 (result.0 ≈ pass) (λ held. Gets V.Keeps pass key held result.0) }
        ensures made { Adds pass.made (TryTrace pass.thread key (is_some result.1)) result.0.made }
        ensures shape { HasShape self.now result.0 }
    {
        prove!(self.has_lock(key));
        let (right, tallies) = pass.apart();
        let (right, got) = try_get(self.parking().scheme(), right, key);
        if got {
            let (pass, held) = self.taken(right, tallies, key);
            (pass, Some(held))
        } else {
            (self.at_rest(right, tallies), None)
        }
    }

    /// Gets the lock, waiting for it where somebody owns it. Where nobody does and nobody is parked, it is one
    /// read-modify-write of the lock's word. Each key that the pass has lies below the lock, in the order of `V`.
    #[inline(always)]
    pub fn lock<R: Wait>(&self, rt: &R, pass: Pass<V, N>, key: usize) -> (Pass<V, N>, Held<V, N>)
        requires key { key < self.now.locks }
        requires not_owned { ¬ Owns pass key }
        requires above { AllBelow V.above (keys_of pass) key }
        ensures gets { Gets V.Keeps pass key result.1 result.0 }
        ensures made { Adds pass.made (GetTrace pass.thread key) result.0.made }
        ensures shape { HasShape self.now result.0 }
    {
        prove!(self.has_lock(key));
        let (right, tallies) = pass.apart();
        let (right, found) = get_free(self.parking().scheme(), right, key);
        let right = if found == UNHELD {
            right
        } else {
            get_slowly(rt, self.parking(), right, key, found, &AtOnce)
        };
        self.taken(right, tallies, key)
    }

    /// `lock` with an action before each sleep, for a runtime that has to know that its thread will sleep:
    /// `lot.lock_after(rt, pass, key, &leave_the_processor)`. The thread is queued then and no bucket is locked; the
    /// action must not park. Where the lock is got without a sleep it does not run; where the call's trace has a
    /// letter, by which a sleep ended, it ran.
    #[inline(always)]
    pub fn lock_after<R: Wait, B: BeforeSleep>(
        &self,
        rt: &R,
        pass: Pass<V, N>,
        key: usize,
        before: &B,
    ) -> (Pass<V, N>, Held<V, N>)
        requires key { key < self.now.locks }
        requires not_owned { ¬ Owns pass key }
        requires above { AllBelow V.above (keys_of pass) key }
        ensures gets { Gets V.Keeps pass key result.1 result.0 }
        ensures made { Adds pass.made (GetTrace pass.thread key) result.0.made }
        ensures shape { HasShape self.now result.0 }
        ensures ran { (letters_in result.0.made ≡ letters_in pass.made) ⊎ B.ran before.now }
    {
        prove!(self.has_lock(key));
        let (right, tallies) = pass.apart();
        let right = get(rt, self.parking(), right, key, before);
        self.taken(right, tallies, key)
    }

    /// The owner takes the value out.
    #[inline(always)]
    pub(crate) fn taken(
        &self,
        right: NamedPass<V, N>,
        tallies: Box<Tallies>,
        key: usize,
    ) -> (Pass<V, N>, Held<V, N>)
        requires key { key < self.now.locks }
        requires owner { IsNewOwner V.grows N.LotName right key }
        requires kept { AreTallied N.locks N.conds right tallies.value }
        ensures held { (result.1.key ≡ key) × IsIn right.own.locks key result.1.value }
        ensures pass { result.0 ≡ pass_view_of right }
        ensures shape { HasShape self.now result.0 }
    {
        let (right, value) = self.parking().scheme().value_out(right, key);
        (self.at_rest(right, tallies), Held::new(key, value))
    }
}
