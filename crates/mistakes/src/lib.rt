//! What callers of a lot easily do wrong: six functions that are right, of which each edit of `must-fail/` and
//! `wrong-bodies/` makes one mistake. docs/MISTAKES.md shows both, with what the prover says. It stands on `lot_sync`.
#![tactic(auto)]

ghost use Rattle.std.specs.Prelude.{◌<◌};
ghost use Rattle.lot_sync.specs.Lot.{OwnsNone, IsCond};

use lot_sync::{Lot, LotName, Moment, Pass};
use lot_words::Keeps;
use std::sync::Wait;

/// A moment at which an unlock hands nothing over.
const NOW: Moment = Moment { now: 0, word: 0 };

/// What was paid in, and how much of that was paid out.
#[derive(Clone, Copy)]
pub struct Account {
    pub paid_in: u64,
    pub paid_out: u64,
}

impl Keeps for Account {
    ghost use Rattle.std.specs.Prelude.{◌<◌, ◌≤◌};

    type Part = ();

    ghost keeps = { λ key account. account.paid_out ≤ account.paid_in };

    ghost grows = { λ old new. Unit {0} };

    ghost part = { λ thread account. tt };

    ghost above = { λ j k. j < k };

    ghost grows_itself = { λ account. tt };

    ghost grows_on = { λ x y z p q. tt };
}

/// What lies in account 0.
pub fn balance<N: LotName<Account> + Send, W: Wait>(
    rt: &W,
    lot: &Lot<Account, N>,
    pass: Pass<Account, N>,
) -> (Pass<Account, N>, u64)
    requires locks { 0 < lot.now.locks }
    requires free { OwnsNone pass }
    ensures { OwnsNone result.0 }
{
    let (pass, held) = lot.lock(rt, pass, 0);
    if held.value().paid_in == 0 {
        let (pass, _) = lot.unlock(rt, pass, held, NOW);
        return (pass, 0);
    }
    let left = held.value().paid_in - held.value().paid_out;
    let (pass, _) = lot.unlock(rt, pass, held, NOW);
    (pass, left)
}

/// Comes, pays one into account 0, and goes.
pub fn visit<N: LotName<Account> + Send, W: Wait>(rt: &W, lot: &Lot<Account, N>)
    requires locks { 0 < lot.now.locks }
{
    let Ok(pass) = lot.register(rt) else {
        return;
    };
    let (pass, mut paid) = lot.lock(rt, pass, 0);
    let account = paid.value_mut();
    account.paid_in = account.paid_in.saturating_add(1);
    let (pass, _) = lot.unlock(rt, pass, paid, NOW);
    lot.leave(rt, pass);
}

/// What was paid into accounts 0 and 1 at one moment; `None` where a number of 64 bits does not hold it.
#[tactic(auto, using(lot_sync::proofs::Below::got_below))]
pub fn paid_into_both<N: LotName<Account> + Send, W: Wait>(
    rt: &W,
    lot: &Lot<Account, N>,
    pass: Pass<Account, N>,
) -> (Pass<Account, N>, Option<u64>)
    requires locks { 1 < lot.now.locks }
    requires free { OwnsNone pass }
    ensures { OwnsNone result.0 }
{
    let (pass, first) = lot.lock(rt, pass, 0);
    let (pass, second) = lot.lock(rt, pass, 1);
    let sum = first.value().paid_in.checked_add(second.value().paid_in);
    let (pass, _) = lot.unlock(rt, pass, second, NOW);
    let (pass, _) = lot.unlock(rt, pass, first, NOW);
    (pass, sum)
}

/// Whether anything was ever paid into account 0, which may be the only one.
pub fn is_used<N: LotName<Account> + Send, W: Wait>(
    rt: &W,
    lot: &Lot<Account, N>,
    pass: Pass<Account, N>,
) -> (Pass<Account, N>, bool)
    requires locks { 0 < lot.now.locks }
    requires free { OwnsNone pass }
    ensures { OwnsNone result.0 }
{
    let (pass, only) = lot.lock(rt, pass, 0);
    let is_used = only.value().paid_in > 0;
    let (pass, _) = lot.unlock(rt, pass, only, NOW);
    (pass, is_used)
}

/// Pays five out of account 0, where they are there.
pub fn pay_out<N: LotName<Account> + Send, W: Wait>(
    rt: &W,
    lot: &Lot<Account, N>,
    pass: Pass<Account, N>,
) -> Pass<Account, N>
    requires locks { 0 < lot.now.locks }
    requires free { OwnsNone pass }
    ensures { OwnsNone result }
{
    let (pass, mut purse) = lot.lock(rt, pass, 0);
    let account = purse.value_mut();
    if account.paid_in - account.paid_out >= 5 {
        account.paid_out = account.paid_out.saturating_add(5);
    }
    let (pass, _) = lot.unlock(rt, pass, purse, NOW);
    pass
}

/// Waits with account 0 until one notification of this condition, which tells that something was paid into it.
#[tactic(auto, using(lot_sync::proofs::Below::got_waits))]
pub fn await_payment<N: LotName<Account> + Send, W: Wait>(
    rt: &W,
    lot: &Lot<Account, N>,
    pass: Pass<Account, N>,
    paid_in: usize,
) -> Pass<Account, N>
    requires locks { 1 < lot.now.locks }
    requires cond { IsCond lot.now paid_in }
    requires free { OwnsNone pass }
    ensures { OwnsNone result }
{
    let (pass, empty) = lot.lock(rt, pass, 0);
    let (pass, told) = lot.wait(rt, pass, empty, paid_in, NOW);
    let (pass, _) = lot.unlock(rt, pass, told, NOW);
    pass
}
