//! Permits of counting semaphores, on the same parking lot as the locks. WTF has no semaphore on its lot: a permit is
//! got and given back as a lock is, and a release leaves it to whoever comes first.
ghost use Rattle.std.specs.Prelude.{◌≡◌, ◌≢◌, ℕ, ◌+◌, ◌≤◌};
ghost use Rattle.lot_order.specs.Order.{AllBelow};
ghost use Rattle.lot_scheme.specs.SemCalls.{opening_permits};
ghost use Rattle.lot_scheme.specs.Traces.{GetPermitTrace};
ghost use Rattle.lot_permits.specs.Freed.{GivenTrace};
ghost use Rattle.lot_sync.specs.Lot.{◌≈◌, HasShape, IsSem, one_permit_more, one_permit_less, permits_with, keys_of};
ghost use Rattle.lot_sync.specs.Traces.{Adds, TryPermitTrace};
ghost use Rattle.lot_sync.specs.Permits.{HasPermit, TriesToGet};

use crate::lot::Lot;
use crate::pass::Pass;
use lot_park::Moment;
use lot_permits::{Freed, Permit, Tried};
use lot_scheme::{LotName, Tally};
use lot_words::Keeps;
use std::sync::Wait;

impl<V: Keeps + Send, N: LotName<V> + Send, C: Tally + Send> Lot<V, N, C> {
    /// Gets a permit where one is left, and else leaves all as it was. It never waits: a load, and where that found a
    /// permit, one compare-exchange.
    ///
    /// `Empty` where the load found none; `Busy` where the exchange failed, since another thread changed the semaphore
    /// meanwhile.
    #[inline(always)]
    pub fn try_acquire(&self, pass: Pass<V, N>, key: usize) -> (Pass<V, N>, Tried<V, N>)
        requires key { IsSem self.now key }
        ensures tries { TriesToGet pass key result.1 result.0 }
        ensures made { Adds pass.made (TryPermitTrace pass.thread key result.1) result.0.made }
        ensures shape { HasShape self.now result.0 }
    {
        prove!(self.has_sem(key));
        let (right, tallies) = pass.apart();
        let (right, tried) = lot_permits::try_acquire(self.parking().scheme(), right, key);
        (self.at_rest(right, tallies), tried)
    }

    /// Gets a permit, waiting for it where none is left. Where one is, it is a load and one compare-exchange. It takes
    /// no memory. Each key that the pass has lies below the semaphore, in the order of `V`.
    #[inline(always)]
    pub fn acquire<R: Wait>(
        &self,
        rt: &R,
        pass: Pass<V, N>,
        key: usize,
    ) -> (Pass<V, N>, Permit<V, N>)
        requires key { IsSem self.now key }
        requires above { AllBelow V.above (keys_of pass) key }
        ensures permit { (result.1.key ≡ key) × (result.1.thread ≡ pass.thread) }
        ensures pass { result.0 ≈ one_permit_more pass key }
        ensures made { Adds pass.made (GetPermitTrace pass.thread key) result.0.made }
        ensures shape { HasShape self.now result.0 }
    {
        prove!(self.has_sem(key));
        let (right, tallies) = pass.apart();
        let (right, permit) = lot_permits::acquire(rt, self.parking(), right, key);
        (self.at_rest(right, tallies), permit)
    }

    /// Gives a permit back: `Quiet` where nobody was parked, `Woke` where the first of the semaphore's line was woken,
    /// who tries again, and `Nobody` where the slow way found nobody there. Where nobody is parked it is a load and one
    /// compare-exchange. It takes no memory.
    #[inline(always)]
    pub fn release<R: Wait>(
        &self,
        rt: &R,
        pass: Pass<V, N>,
        permit: Permit<V, N>,
        moment: Moment,
    ) -> (Pass<V, N>, Freed)
        requires has { HasPermit pass permit }
        ensures pass { result.0 ≈ one_permit_less pass permit.key }
        ensures made { Adds pass.made (GivenTrace pass.thread permit.key result.1) result.0.made }
        ensures shape { HasShape self.now result.0 }
    {
        let (right, tallies) = pass.apart();
        let (right, freed) = lot_permits::release(rt, self.parking(), right, permit, moment);
        (self.at_rest(right, tallies), freed)
    }

    /// Shows that two passes are of different threads, and that of each semaphore both hold together at most as many
    /// permits as there were at the opening. It changes nothing.
    pub fn check_permits(&self, first: Pass<V, N>, second: Pass<V, N>) -> (Pass<V, N>, Pass<V, N>)
        ensures same { (result.0 ≡ first) × (result.1 ≡ second) }
        ensures threads { first.thread ≢ second.thread }
        ensures permits { (k : ℕ) → permits_with first k + permits_with second k
            ≤ opening_permits N.first_sem N.permits k }
    {
        let (first, first_tallies) = first.apart();
        let (second, second_tallies) = second.apart();
        let scheme = self.parking().scheme();
        let (first, second) = lot_permits::check_permits(scheme, first, second);
        (
            Pass::at_rest(first, first_tallies),
            Pass::at_rest(second, second_tallies),
        )
    }

    /// How many permits of the semaphore were left at some moment of this call. It is an observation: nothing is
    /// promised of it.
    pub fn permits_left(&self, key: usize) -> u64
        requires { IsSem self.now key }
    {
        prove!(self.has_sem(key));
        lot_permits::permits_left(self.parking().scheme(), key)
    }
}
