//! Two passes of one lot are of two threads.
ghost use Rattle.std.specs.Prelude.{◌≡◌, ◌≢◌, ℕ, ◌+◌, ◌<◌, ◌≤◌, slice_index};
ghost use Rattle.lot_words.specs.World.{Holds};
ghost use Rattle.lot_whole.specs.Both.{KnowBoth};
ghost use Rattle.lot_scheme.specs.SemCalls.{opening_permits};

use crate::contention::Tally;
use crate::name::LotName;
use crate::pass::NamedPass;
use crate::scheme::LotScheme;
use lot_whole::Keeps;

impl<V: Keeps, N: LotName<V>, C: Tally> LotScheme<V, N, C> {
    /// Gives both passes back as they were. The point is what it proves: they are of two threads, no lock is held by
    /// both, of each semaphore both have together at most as many permits as there were at the opening, and of each
    /// lock both know of one value.
    pub fn check_apart(
        &self,
        first: NamedPass<V, N>,
        second: NamedPass<V, N>,
    ) -> (NamedPass<V, N>, NamedPass<V, N>)
        ensures same { (result.0 ≡ first) × (result.1 ≡ second) }
        ensures threads { first.thread ≢ second.thread }
        ensures locks { (l : ℕ) → Holds first.own.locks l → ¬ Holds second.own.locks l }
        ensures permits { (k : ℕ) → slice_index first.own.sems.out k + slice_index second.own.sems.out k ≤
            opening_permits N.first_sem N.permits k }
        ensures values { (l : ℕ) → l < N.locks → KnowBoth V.Keeps l first.thread second.thread first.own.locks second.own.locks }
    {
        let (one, two) = self
            .words()
            .check_apart(first.into_pass(), second.into_pass());
        (NamedPass::new(one), NamedPass::new(two))
    }
}
