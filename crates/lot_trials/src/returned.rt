//! One thread leaves a value under a lock. When the lot is closed, its caller concludes from the contracts of the
//! public calls alone that just this value comes back, though any value may follow any other.
ghost use Rattle.std.specs.Prelude.{◌≡◌, length, [], ◌∷◌};
ghost use Rattle.lot_sync.specs.Lot.{OwnsNone, HasSeen};
ghost use Rattle.lot_sync.specs.Opened.{IsNamed};

use crate::asserts::{copies, equal};
use crate::passes::{Visitor, enter, open, start};
use crate::values::Number;
use lot_sync::{LotName, Moment, Opened, Pass};
use std::alloc::Global;
use std::marker::Brand;
use std::process::Abort;
use std::sync::Wait;

impl<N: LotName<Number> + Send + Sync, T: Wait> Visitor<'_, Number, N, T> {
    /// Leaves this number under lock 0.
    fn leave(&self, pass: Pass<Number, N>, number: Number) -> Pass<Number, N>
        requires free { OwnsNone pass }
        ensures thread { result.thread ≡ pass.thread }
        ensures free { OwnsNone result }
        ensures seen { HasSeen result 0 number }
    {
        let (pass, mut held) = self.lot.lock(self.rt, pass, 0);
        *held.value_mut() = number;
        let (pass, _) = self
            .lot
            .unlock(self.rt, pass, held, Moment { now: 0, word: 7 });
        pass
    }
}

/// Starts the lot, leaves this number there, and closes it.
fn returned<N: LotName<Number> + Send + Sync, T: Wait + Abort>(
    rt: &T,
    alloc: Global,
    opened: Opened<Number>,
    number: Number,
) -> Vec<Number>
    requires named { IsNamed N.LotName opened }
    requires sizes { (opened.threads ≡ 1) × (length opened.values ≡ 1) }
    ensures { result.items ≡ number ∷ [] }
{
    let (lot, mut passes) = start::<Number, N, T>(rt, alloc, 1, opened);
    let pass = enter(rt, &lot);
    let pass = Visitor { rt, lot: &lot }.leave(pass, number);
    passes.push_reserved(pass);
    let (values, _) = lot.close(rt, passes);
    values
}

#[test]
fn the_value_that_was_left_comes_back(rt: HostRuntime) {
    let values = copies(&rt, rt.alloc(), Number { n: 7 }, 1);
    let opened = open(&rt, rt.alloc(), 1, values, 0);
    let number = Number { n: 3 };
    let values = returned::<Brand, HostRuntime>(&rt, rt.alloc(), opened, number);
    equal(&rt, values[0].n, 3);
}
