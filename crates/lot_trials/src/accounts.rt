//! A caller of its own: accounts that never go below zero, and whose history only grows.
ghost use Rattle.std.specs.Prelude.{◌≡◌, ◌+◌, ◌≤◌, ◌<◌, true, false, MatchBool, length, vec_len};
ghost use Rattle.lot_sync.specs.Lot.{OwnsNone};
ghost use Rattle.lot_sync.specs.Opened.{IsNamed};
ghost use Rattle.lot_sync.specs.Holding.{Holding, HoldingBoth};
ghost use Rattle.lot_sync.specs.Opened.{KeepAll};

use crate::asserts::{equal, failed};
use crate::passes::{enter, open, start};
use lot_calls::finish;
use lot_sync::{Held, Lot, LotName, Moment, Opened, Pass};
use lot_words::Keeps;
use std::alloc::Global;
use std::marker::Brand;
use std::process::Abort;
use std::sync::Wait;

/// What was ever paid into an account and out of it.
#[derive(Clone, Copy)]
struct Account {
    paid_in: u64,
    paid_out: u64,
}

impl Keeps for Account {
    ghost use Rattle.std.specs.Prelude.{◌≤◌};
    ghost use Rattle.std.proofs.Common.{le_refl, le_trans};

    type Part = ();

    ghost keeps = { λ key account. account.paid_out ≤ account.paid_in };

    ghost grows = { λ old new. (old.paid_in ≤ new.paid_in) × (old.paid_out ≤ new.paid_out) };

    ghost part = { λ thread account. tt };

    ghost grows_itself = { λ account. (le_refl account.paid_in, le_refl account.paid_out) };

    ghost grows_on = { λ x y z a b. (le_trans a.0 b.0, le_trans a.1 b.1) };
}

/// `lock`, and what this caller has of it.
fn own<N: LotName<Account> + Send + Sync, T: Wait>(
    rt: &T,
    lot: &Lot<Account, N>,
    pass: Pass<Account, N>,
) -> (Pass<Account, N>, Held<Account, N>)
    requires key { 0 < lot.now.locks }
    requires free { OwnsNone pass }
    ensures key { result.1.key ≡ 0 }
    ensures kept { result.1.value.paid_out ≤ result.1.value.paid_in }
    ensures holding { Holding (λ x y. (x.paid_in ≤ y.paid_in) × (x.paid_out ≤ y.paid_out)) result.0 result.1 }
{
    lot.lock(rt, pass, 0)
}

/// `unlock`, and what it takes.
fn release<N: LotName<Account> + Send + Sync, T: Wait>(
    rt: &T,
    lot: &Lot<Account, N>,
    pass: Pass<Account, N>,
    held: Held<Account, N>,
) -> Pass<Account, N>
    requires key { held.key < lot.now.locks }
    requires kept { held.value.paid_out ≤ held.value.paid_in }
    requires holding { Holding (λ x y. (x.paid_in ≤ y.paid_in) × (x.paid_out ≤ y.paid_out)) pass held }
    ensures { OwnsNone result }
{
    lot.unlock(rt, pass, held, Moment { now: 0, word: 0 }).0
}

/// Gets both accounts.
fn own_both<N: LotName<Account> + Send + Sync, T: Wait>(
    rt: &T,
    lot: &Lot<Account, N>,
    pass: Pass<Account, N>,
) -> (Pass<Account, N>, Held<Account, N>, Held<Account, N>)
    requires key { 1 < lot.now.locks }
    requires free { OwnsNone pass }
    ensures keys { (result.1.key ≡ 0) × (result.2.key ≡ 1) }
    ensures kept { (result.1.value.paid_out ≤ result.1.value.paid_in)
        × (result.2.value.paid_out ≤ result.2.value.paid_in) }
    ensures both { HoldingBoth (λ x y. (x.paid_in ≤ y.paid_in) × (x.paid_out ≤ y.paid_out)) result.0 result.1 result.2 }
{
    let (pass, from) = own(rt, lot, pass);
    let (pass, into) = lot.lock(rt, pass, 1);
    (pass, from, into)
}

/// Lets account 0 go.
fn release_first<N: LotName<Account> + Send + Sync, T: Wait>(
    rt: &T,
    lot: &Lot<Account, N>,
    pass: Pass<Account, N>,
    first: Held<Account, N>,
    second: Held<Account, N>,
) -> (Pass<Account, N>, Held<Account, N>)
    requires key { first.key < lot.now.locks }
    requires kept { first.value.paid_out ≤ first.value.paid_in }
    requires both { HoldingBoth (λ x y. (x.paid_in ≤ y.paid_in) × (x.paid_out ≤ y.paid_out)) pass first second }
    ensures same { result.1 ≡ second }
    ensures holding { Holding (λ x y. (x.paid_in ≤ y.paid_in) × (x.paid_out ≤ y.paid_out)) result.0 result.1 }
{
    let (pass, _) = lot.unlock(rt, pass, first, Moment { now: 0, word: 0 });
    (pass, second)
}

/// Both accounts after so much was moved from the first to the second, where there is enough; and whether it was.
fn moved(from: Account, into: Account, amount: u64) -> (Account, Account, bool)
    requires { (from.paid_out ≤ from.paid_in) × (into.paid_out ≤ into.paid_in) }
    ensures kept { (result.0.paid_out ≤ result.0.paid_in) × (result.1.paid_out ≤ result.1.paid_in) }
    ensures grown { (from.paid_in ≤ result.0.paid_in) × (from.paid_out ≤ result.0.paid_out)
        × (into.paid_in ≤ result.1.paid_in) × (into.paid_out ≤ result.1.paid_out) }
    ensures answer { MatchBool result.2 ((result.0.paid_out ≡ from.paid_out + amount)
        × (result.1.paid_in ≡ into.paid_in + amount)) ((result.0 ≡ from) × (result.1 ≡ into)) }
{
    let Some(paid_in) = into.paid_in.checked_add(amount) else {
        return (from, into, false);
    };
    if from.paid_in - from.paid_out < amount {
        return (from, into, false);
    }
    let taken = Account {
        paid_in: from.paid_in,
        paid_out: from.paid_out + amount,
    };
    let given = Account {
        paid_in,
        paid_out: into.paid_out,
    };
    (taken, given, true)
}

/// Moves an amount from account 0 to account 1 with both locked. That neither went below zero is what each unlock asks
/// for.
fn transfer<N: LotName<Account> + Send + Sync, T: Wait>(
    rt: &T,
    lot: &Lot<Account, N>,
    pass: Pass<Account, N>,
    amount: u64,
) -> (Pass<Account, N>, bool)
    requires key { 1 < lot.now.locks }
    requires free { OwnsNone pass }
    ensures { OwnsNone result.0 }
{
    let (pass, mut first, mut second) = own_both(rt, lot, pass);
    let (from, into, done) = moved(*first.value(), *second.value(), amount);
    *first.value_mut() = from;
    *second.value_mut() = into;
    let (pass, second) = release_first(rt, lot, pass, first, second);
    (release(rt, lot, pass, second), done)
}

/// Two threads' passes move in turn; what would overdraw the account is not moved.
fn move_in_turn<N: LotName<Account> + Send + Sync, T: Wait + Abort>(rt: &T, lot: &Lot<Account, N>)
    requires { 1 < lot.now.locks }
{
    let zero = enter(rt, lot);
    let one = enter(rt, lot);
    let (zero, done) = transfer(rt, lot, zero, 3);
    equal(rt, done, true);
    let (one, done) = transfer(rt, lot, one, 3);
    equal(rt, done, false);
    lot.leave(rt, one);
    lot.leave(rt, zero);
}

fn open_and_move<N: LotName<Account> + Send + Sync, T: Wait + Abort>(
    rt: &T,
    alloc: Global,
    opened: Opened<Account>,
)
    requires named { IsNamed N.LotName opened }
    requires sizes { (opened.threads ≡ 2) × (length opened.values ≡ 2) }
{
    let (lot, passes) = start::<Account, N, T>(rt, alloc, 2, opened);
    move_in_turn(rt, &lot);
    let (accounts, _) = finish(rt, lot, passes);
    equal(rt, accounts.len(), 2);
    equal(rt, (accounts[0].paid_in, accounts[0].paid_out), (5, 3));
    equal(rt, (accounts[1].paid_in, accounts[1].paid_out), (8, 0));
}

#[test]
fn an_account_is_never_overdrawn(rt: HostRuntime) {
    let opening = Account {
        paid_in: 5,
        paid_out: 0,
    };
    let Ok(accounts) = vec![in rt.alloc(); opening; 2] else {
        failed(&rt, "no memory")
    };
    on_account(&rt, rt.alloc(), accounts);
}

fn on_account<T: Wait + Abort>(rt: &T, alloc: Global, accounts: Vec<Account>)
    requires { (vec_len accounts ≡ 2) × KeepAll (λ key account. account.paid_out ≤ account.paid_in) accounts.items }
{
    let opened = open(rt, alloc, 2, accounts, 0);
    open_and_move::<Brand, T>(rt, alloc, opened);
}
