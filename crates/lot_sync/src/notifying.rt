//! Notifying the threads that wait on a condition, as WTF's `Condition` does.
ghost use Rattle.std.specs.Prelude.{◌≡◌, ◌≤◌, MatchBool};
ghost use Rattle.lot_core.specs.Steps.{IsCallCount};
ghost use Rattle.lot_sync.specs.Lot.{◌≈◌, HasShape, IsCond, called_more};
ghost use Rattle.lot_sync.specs.Traces.{Adds, LookTrace, NotifyTrace, NotifyAllTrace};
ghost use Rattle.lot_waits.specs.Notifying.{one_if};

use crate::lot::Lot;
use crate::pass::Pass;
use lot_park::Moment;
use lot_scheme::{LotName, Tally};
use lot_waits::count_taken;
use lot_words::Keeps;
use std::sync::Wait;

impl<V: Keeps + Send, N: LotName<V> + Send, C: Tally + Send> Lot<V, N, C> {
    /// Whether somebody may wait on the condition at some moment of this call. It is an observation: nothing is
    /// promised of it.
    #[inline(always)]
    pub fn has_waiters(&self, pass: Pass<V, N>, cond: usize) -> (Pass<V, N>, bool)
        requires cond { IsCond self.now cond }
        ensures same { result.0 ≈ pass }
        ensures made { Adds pass.made (LookTrace pass.thread cond result.1) result.0.made }
        ensures shape { HasShape self.now result.0 }
    {
        prove!(self.has_cond(cond));
        let (right, tallies) = pass.apart();
        let (right, has) = lot_waits::has_waiters(self.parking(), right, cond);
        (self.at_rest(right, tallies), has)
    }

    /// Takes the first thread of the condition's line, if any, and answers whether it took one. Where nobody waits it
    /// is one load, and no bucket is locked.
    #[inline(always)]
    pub fn notify_one<R: Wait>(
        &self,
        rt: &R,
        pass: Pass<V, N>,
        cond: usize,
        moment: Moment,
    ) -> (Pass<V, N>, bool)
        requires cond { IsCond self.now cond }
        ensures counted { MatchBool result.1 (result.0 ≈ called_more pass cond 1) (result.0 ≈ pass) }
        ensures made { Adds pass.made (NotifyTrace pass.thread cond 1 (one_if result.1)) result.0.made }
        ensures shape { HasShape self.now result.0 }
    {
        prove!(self.has_cond(cond));
        let (right, tallies) = pass.apart();
        let (right, taken) = lot_waits::notify_one(rt, self.parking(), right, cond, moment);
        let tallies = count_taken(tallies, self.locks, cond, number_of(taken));
        (self.at_rest(right, tallies), taken)
    }

    /// Takes the first `count` threads of the condition's line, or all where they are fewer, in one visit of the
    /// bucket, and answers how many they were; `count` is 1 to 256. Where nobody waits it is one load, and no bucket is
    /// locked. After a change that so many threads wait for, as after putting three items:
    /// `let (pass, woken) = lot.notify_some(rt, pass, cond, 3);`
    #[inline(always)]
    pub fn notify_some<R: Wait>(
        &self,
        rt: &R,
        pass: Pass<V, N>,
        cond: usize,
        count: usize,
    ) -> (Pass<V, N>, usize)
        requires cond { IsCond self.now cond }
        requires count { IsCallCount count }
        ensures counted { result.0 ≈ called_more pass cond result.1 }
        ensures made { Adds pass.made (NotifyTrace pass.thread cond count result.1) result.0.made }
        ensures most { result.1 ≤ count }
        ensures shape { HasShape self.now result.0 }
    {
        prove!(self.has_cond(cond));
        let (right, tallies) = pass.apart();
        let (right, some) = lot_waits::notify_some(rt, self.parking(), right, cond, count);
        let tallies = count_taken(tallies, self.locks, cond, some);
        (self.at_rest(right, tallies), some)
    }

    /// Takes all threads of the condition's line, and answers how many. Where nobody waits it is one load, and no
    /// bucket is locked.
    #[inline(always)]
    pub fn notify_all<R: Wait>(&self, rt: &R, pass: Pass<V, N>, cond: usize) -> (Pass<V, N>, usize)
        requires cond { IsCond self.now cond }
        ensures counted { result.0 ≈ called_more pass cond result.1 }
        ensures made { Adds pass.made (NotifyAllTrace pass.thread cond result.1) result.0.made }
        ensures shape { HasShape self.now result.0 }
    {
        prove!(self.has_cond(cond));
        let (right, tallies) = pass.apart();
        let (right, taken) = lot_waits::notify_all(rt, self.parking(), right, cond);
        let tallies = count_taken(tallies, self.locks, cond, taken);
        (self.at_rest(right, tallies), taken)
    }
}

/// How many sleepers were taken, of one at most.
fn number_of(taken: bool) -> usize
    ensures { result ≡ one_if taken }
{
    if taken { 1 } else { 0 }
}
