//! What two passes of one lot cannot have in common.
ghost use Rattle.std.specs.Prelude.{◌≡◌, ◌≢◌, ◌<◌, ℕ};
ghost use Rattle.lot_sync.specs.Lot.{Owns};
ghost use Rattle.lot_sync.specs.Values.{KnowBoth};

use crate::lot::Lot;
use crate::pass::Pass;
use lot_scheme::{LotName, Tally};
use lot_words::Keeps;

impl<V: Keeps + Send, N: LotName<V> + Send, C: Tally + Send> Lot<V, N, C> {
    /// Shows that two passes are of different threads and own no common lock: each lock has at most one owner. It
    /// changes nothing.
    pub fn check_apart(&self, first: Pass<V, N>, second: Pass<V, N>) -> (Pass<V, N>, Pass<V, N>)
        ensures same { (result.0 ≡ first) × (result.1 ≡ second) }
        ensures threads { first.thread ≢ second.thread }
        ensures apart { (key : ℕ) → Owns first key → ¬ Owns second key }
    {
        let (first, first_tallies) = first.apart();
        let (second, second_tallies) = second.apart();
        let (first, second) = self.parking().scheme().check_apart(first, second);
        (
            Pass::at_rest(first, first_tallies),
            Pass::at_rest(second, second_tallies),
        )
    }

    /// Shows what two passes both know of the key's value at this moment: one value keeps the rule, has grown from what
    /// each has seen, and has of each its own part as it has seen it, unless that pass owns the lock. So what two
    /// threads have noted in their own parts can't contradict the rule. It changes nothing.
    pub fn check_parts(
        &self,
        first: Pass<V, N>,
        second: Pass<V, N>,
        key: usize,
    ) -> (Pass<V, N>, Pass<V, N>)
        requires key { key < self.now.locks }
        ensures same { (result.0 ≡ first) × (result.1 ≡ second) }
        ensures threads { first.thread ≢ second.thread }
        ensures parts { KnowBoth V.Keeps key first second }
    {
        let (first, first_tallies) = first.apart();
        let (second, second_tallies) = second.apart();
        let (one, other) = self.parking().scheme().check_apart(first, second);
        (
            Pass::at_rest(one, first_tallies),
            Pass::at_rest(other, second_tallies),
        )
    }
}
