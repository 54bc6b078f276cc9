//! What the passes of a lot counted, added up.
ghost use Rattle.std.specs.Prelude.{ℕ, List, ◌++◌, [], ◌∷◌};
ghost use Rattle.lot_waits.specs.Counts.{CountsView, AreKept};
ghost use Rattle.lot_waits.specs.Ledger.{AreBothSums, IsBalanced, IsLedger};

use crate::tallies::{Tallies, add};

/// What the passes of a lot counted for each condition, modulo 2^64: the sleepers that were taken from its line, and
/// the waits that ended. Both lists are equal.
#[derive(Debug, Drop)]
pub struct Ledger {
    pub called: Vec<u64>,
    pub woken: Vec<u64>,
}

/// Adds what is kept of one pass more to the sums.
pub fn add_up(sums: &mut Tallies, tallies: &Tallies)
    requires { (locks conds : ℕ) × (waiters : List CountsView) × (q : CountsView)
        × AreBothSums locks conds waiters sums.old
        × AreKept locks conds q tallies.now.called.items tallies.now.woken.items }
    ensures { (locks conds : ℕ) (waiters : List CountsView) (q : CountsView) → AreBothSums locks conds waiters sums.old
        → AreKept locks conds q tallies.now.called.items tallies.now.woken.items
        → AreBothSums locks conds (waiters ++ q ∷ []) sums.new }
{
    add(&mut sums.called, &tallies.called);
    add(&mut sums.woken, &tallies.woken);
}

/// The ledger of all passes, which are balanced where all of them have come back.
pub fn ledger_of(sums: Tallies) -> Ledger
    ensures { (locks conds : ℕ) (waiters : List CountsView) → AreBothSums locks conds waiters sums → IsBalanced waiters
        → IsLedger locks conds waiters result.called.items result.woken.items }
{
    let Tallies { called, woken } = sums;
    Ledger { called, woken }
}
