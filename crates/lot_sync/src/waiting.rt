//! Waiting on a condition, as WTF's `Condition::wait` does: the thread is queued and its lock let go, and when a
//! notification has taken it from the line it gets the lock again.
ghost use Rattle.std.specs.Prelude.{◌<◌};
ghost use Rattle.lot_order.specs.Order.{MayWait};
ghost use Rattle.lot_sync.specs.Lot.{Owns, HasShape, IsCond, keys_of};
ghost use Rattle.lot_sync.specs.Values.{MayGiveBack, WaitsAndGets};
ghost use Rattle.lot_sync.specs.Traces.{Adds, WaitedTrace};

use crate::held::Held;
use crate::lot::Lot;
use crate::pass::Pass;
use lot_park::{AtOnce, BeforeSleep, Moment};
use lot_scheme::{LotName, Tally};
use lot_waits::{count_wait, wait};
use lot_words::Keeps;
use std::sync::Wait;

impl<V: Keeps + Send, N: LotName<V> + Send, C: Tally + Send> Lot<V, N, C> {
    /// Lets the lock go, waits on the condition until a notification takes the thread, and gets the lock again. The
    /// lock is let go when the thread is in the condition's line, so no notification is missed that comes after it.
    ///
    /// Each key that the pass has beside the lock lies below it and below the condition, in the order of `V`.
    ///
    /// The moment is that of the unlock. What the caller waited for may be gone again when the lock is got: wait in a
    /// loop.
    pub fn wait<R: Wait>(
        &self,
        rt: &R,
        pass: Pass<V, N>,
        held: Held<V, N>,
        cond: usize,
        moment: Moment,
    ) -> (Pass<V, N>, Held<V, N>)
        requires key { held.key < self.now.locks }
        requires owns { Owns pass held.key }
        requires back { MayGiveBack V.Keeps pass held }
        requires cond { IsCond self.now cond }
        requires above { MayWait V.above (keys_of pass) cond held.key }
        ensures gets { WaitsAndGets V.Keeps pass held cond result.1 result.0 }
        ensures made { Adds pass.made (WaitedTrace pass.thread cond held.key moment.now) result.0.made }
        ensures shape { HasShape self.now result.0 }
    {
        self.wait_after(rt, pass, held, cond, moment, &AtOnce)
    }

    /// `wait` with an action after the thread is queued on the condition, before its lock is let go; it must not park.
    /// When this returns it ran. How the lock is got again is `lock`'s way, without it.
    pub fn wait_after<R: Wait, B: BeforeSleep>(
        &self,
        rt: &R,
        pass: Pass<V, N>,
        held: Held<V, N>,
        cond: usize,
        moment: Moment,
        before: &B,
    ) -> (Pass<V, N>, Held<V, N>)
        requires key { held.key < self.now.locks }
        requires owns { Owns pass held.key }
        requires back { MayGiveBack V.Keeps pass held }
        requires cond { IsCond self.now cond }
        requires above { MayWait V.above (keys_of pass) cond held.key }
        ensures gets { WaitsAndGets V.Keeps pass held cond result.1 result.0 }
        ensures made { Adds pass.made (WaitedTrace pass.thread cond held.key moment.now) result.0.made }
        ensures shape { HasShape self.now result.0 }
        ensures acted { B.ran before.now }
    {
        prove!(self.has_cond(cond));
        let key = held.key();
        let (right, tallies) = self.given_back(pass, held, key);
        let (right, _released) = wait(rt, self.parking(), right, cond, key, moment, before);
        let tallies = count_wait(tallies, self.locks, cond);
        self.taken(right, tallies, key)
    }
}
