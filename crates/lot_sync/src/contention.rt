//! How busy the lines of a lot's keys are, where it counts that.
ghost use Rattle.std.specs.Prelude.{◌≡◌, ℕ, ◌+◌, ◌<◌, vec_len};
ghost use Rattle.std.specs.List.{All, Any};
ghost use Rattle.lot_scheme.specs.Roots.{size_named};
ghost use Rattle.lot_scheme.specs.Counts.{IsContention, WasCounted, CountTrace};
ghost use Rattle.lot_sync.specs.Lot.{PassView, ◌≈◌, HasShape, OwnsNone, IsLedgerOf};
ghost use Rattle.lot_sync.specs.Values.{GoesOnTo, AreSeen};
ghost use Rattle.lot_sync.specs.Closing.{HasOneRun, AreCounts};
ghost use Rattle.lot_sync.specs.Traces.{Adds};

use crate::lot::Lot;
use crate::pass::Pass;
use lot_scheme::{Contention, LotName, key_contention, note_contention};
use lot_waits::Ledger;
use lot_words::Keeps;
use std::sync::Wait;

impl<V: Keeps + Send, N: LotName<V> + Send> Lot<V, N, Contention> {
    /// What was counted of the lock, the condition or the semaphore, as it was at some moment of this call; two calls
    /// are of two moments. The clause says less: some lot of this size had such counts, in a sound state. Who has a
    /// pass is told more by `note_contention`.
    ///
    /// To find the lock that is waited for most, compare `parked` of all: a thread that gets its lock without parking
    /// is counted nowhere.
    pub fn contention<R: Wait>(&self, rt: &R, key: usize) -> Contention
        requires { key < self.now.locks + self.now.conds + self.now.sems }
        ensures { WasCounted V.Keeps (size_named N.threads N.locks N.conds N.permits) key result }
    {
        prove!(self.has_lock(key) || self.has_cond(key) || self.has_sem(key));
        key_contention(rt, self.parking(), key)
    }

    /// The same, told by the history: the pass has an entry for it, and at the end each such entry is right of those
    /// before it (`lot_whole::laws::counts_follow`). For who has a pass.
    pub fn note_contention<R: Wait>(
        &self,
        rt: &R,
        pass: Pass<V, N>,
        key: usize,
    ) -> (Pass<V, N>, Contention)
        requires { key < self.now.locks + self.now.conds + self.now.sems }
        ensures pass { result.0 ≈ pass }
        ensures made { Adds pass.made (CountTrace pass.thread key result.1) result.0.made }
        ensures shape { HasShape self.now result.0 }
    {
        prove!(self.has_lock(key) || self.has_cond(key) || self.has_sem(key));
        let (right, tallies) = pass.apart();
        let (right, counted) = note_contention(rt, self.parking(), right, key);
        (self.at_rest(right, tallies), counted)
    }

    /// `close`, and what was counted of each key, in order.
    pub fn close_counted<R: Wait>(
        self,
        rt: &R,
        passes: Vec<Pass<V, N>>,
    ) -> (Vec<V>, Ledger, Vec<Contention>)
        requires count { vec_len passes ≡ self.threads }
        requires all { (t : ℕ) → t < self.threads → Any (λ (p : PassView V). p.thread ≡ t) passes.items }
        requires free { All OwnsNone passes.items }
        ensures count { vec_len result.0 ≡ self.locks }
        ensures values { All (GoesOnTo V.Keeps result.0.items) passes.items }
        ensures seen { AreSeen result.0.items passes.items }
        ensures ledger { IsLedgerOf self passes.items result.1.called.items result.1.woken.items }
        ensures counted { (run : HasOneRun N.LotName passes.items)
            × AreCounts (λ c p t h. IsContention p t h c) run.told.recounted.log run.roots result.2.items }
        ensures keys { vec_len result.2 ≡ self.locks + self.conds + self.sems }
    {
        self.end(rt, passes)
    }
}
