//! The smallest caller, which the pages quote: it raises a number under lock 0.
ghost use Rattle.std.specs.Prelude.{◌<◌};
ghost use Rattle.lot_sync.specs.Lot.{OwnsNone};

use lot_sync::{Lot, LotName, Moment, Pass};
use lot_words::Keeps;
use std::sync::Wait;

#[cfg(test)]
mod tests;

/// A number that never falls.
#[derive(Clone, Copy)]
struct Number {
    n: u64,
}

impl Keeps for Number {
    ghost use Rattle.std.specs.Prelude.{◌≤◌};
    ghost use Rattle.std.proofs.Common.{le_refl, le_trans};

    type Part = ();

    ghost keeps = { λ key number. Unit {0} };

    ghost grows = { λ old new. old.n ≤ new.n };

    ghost part = { λ thread number. tt };

    ghost grows_itself = { λ number. le_refl number.n };

    ghost grows_on = { λ x y z p q. le_trans p q };
}

fn raise<N: LotName<Number> + Send, W: Wait>(
    rt: &W,
    lot: &Lot<Number, N>,
    pass: Pass<Number, N>,
) -> Pass<Number, N>
    requires locks { 0 < lot.now.locks }
    requires free { OwnsNone pass }
    ensures { OwnsNone result }
{
    let (pass, mut held) = lot.lock(rt, pass, 0);
    let number = held.value_mut();
    number.n = number.n.saturating_add(1);
    let (pass, _) = lot.unlock(rt, pass, held, Moment { now: 0, word: 0 });
    pass
}
