//! Accounts: a transfer under two locks, and at the end the sum is the sum at the beginning.
ghost use Rattle.std.specs.Prelude.{◌≡◌, ◌≢◌, ◌<◌, ◌≤◌, ◌+◌, MatchBool, length, vec_len, vec_capacity, sum_by};
ghost use Rattle.lot_sync.specs.Lot.{OwnsNone};
ghost use Rattle.lot_sync.specs.Opened.{IsNamed};
ghost use Rattle.gallery.specs.Accounts.{IsBooked, IsEven, AreEven, IsSettled, Settles, Moves, MovesNothing, Transfers};
ghost use Rattle.gallery.specs.Accounts.{balance_of, opening_of, AreOpenedAs};

use crate::crew::{NOW, open};
use lot_calls::{finish, leave_all, start_with_passes, with_both, work_together};
use lot_command::Failure;
use lot_sync::{Lot, LotName, Opened, Pass};
use lot_words::Keeps;
use std::alloc::Global;
use std::marker::Brand;
use std::sync::Wait;
use std::thread::Threads;

const ACCOUNTS: usize = 4;

const WORKERS: usize = 4;

/// What an account opened with, what lies in it, and what each worker ever moved into it and out of it.
#[derive(Clone, Copy, Drop)]
pub struct Account {
    opening: u64,
    balance: u64,
    moved_in: [u64; WORKERS],
    moved_out: [u64; WORKERS],
}

impl Keeps for Account {
    ghost use Rattle.std.specs.Prelude.{◌<◌};
    ghost use Rattle.gallery.specs.Accounts.{IsBooked, IsEven, StaysOpenedAs, moved_by};
    ghost use Rattle.std.proofs.Common.{refl, ◌∙◌};

    type Part = (u64, u64);

    ghost keeps = { λ key account. IsBooked account };

    ghost grows = { StaysOpenedAs };

    ghost part = { moved_by };

    ghost rests = { λ rested. IsEven rested.thread rested.seen };

    ghost above = { λ j k. j < k };

    ghost grows_itself = { λ account. refl };

    ghost grows_on = { λ x y z p q. p ∙ q };
}

/// Moves the amount from the first account to the second, and answers whether it did. Where it does not lie there, or
/// a number has no room, nothing changes.
#[tactic(auto, using(crate::proofs::Settling::settles_as_before))]
fn pay(thread: usize, amount: u64, from: &mut Account, into: &mut Account) -> bool
    requires thread { thread < WORKERS }
    requires booked { IsBooked from.old × IsBooked into.old }
    ensures settles { Settles thread from.old into.old from.new into.new }
    ensures moves { MatchBool result (Moves thread amount from.old into.old from.new into.new)
        (MovesNothing thread amount from.old into.old from.new into.new) }
{
    let Some(left) = from.balance.checked_sub(amount) else {
        return false;
    };
    let Some(grown) = into.balance.checked_add(amount) else {
        return false;
    };
    let Some(out) = from.moved_out[thread].checked_add(amount) else {
        return false;
    };
    let Some(in_all) = into.moved_in[thread].checked_add(amount) else {
        return false;
    };
    from.balance = left;
    from.moved_out[thread] = out;
    into.balance = grown;
    into.moved_in[thread] = in_all;
    true
}

/// Moves the amount from one account to another, where it lies there, and answers whether it did. What the pass has
/// seen of all accounts stays even: as much as the worker ever moved into accounts it moved out of accounts.
pub fn transfer<N: LotName<Account> + Send, T: Wait>(
    rt: &T,
    lot: &Lot<Account, N>,
    pass: Pass<Account, N>,
    from: usize,
    into: usize,
    amount: u64,
) -> (Pass<Account, N>, bool)
    requires keys { (from < lot.now.locks) × (into < lot.now.locks) × (into ≢ from) }
    requires thread { pass.thread < WORKERS }
    requires free { OwnsNone pass }
    requires even { IsEven pass.thread pass.seen }
    ensures back { (result.0.thread ≡ pass.thread) × OwnsNone result.0 }
    ensures even { IsEven result.0.thread result.0.seen }
    ensures moves { Transfers pass from into amount result.1 result.0 }
{
    let thread = pass.thread();
    let work = |from: &mut Account, into: &mut Account| pay(thread, amount, from, into);
    with_both(rt, lot, pass, from, into, NOW, work)
}

/// Ends the lot: whatever was moved, the accounts have together what they opened with, which is what those of the lot's
/// opening say.
pub fn end<N: LotName<Account> + Send, T: Wait>(
    rt: &T,
    lot: Lot<Account, N>,
    passes: Vec<Pass<Account, N>>,
) -> Vec<Account>
    requires sizes { (lot.locks ≡ ACCOUNTS) × (lot.threads ≡ WORKERS) }
    requires room { (vec_len passes ≡ 0) × (lot.threads ≤ vec_capacity passes) }
    ensures sum { sum_by balance_of result.items ≡ sum_by opening_of result.items }
    ensures opening { AreOpenedAs N.values result.items }
{
    finish(rt, lot, passes).0
}

/// What the accounts have together, and what was ever moved into them.
pub struct Totals {
    pub sum: u64,
    pub moved: u64,
}

/// What an account opens with: no order of the transfers drains it.
const OPENING: u64 = 5_000;

/// Workers move amounts between the accounts.
pub fn run<T: Threads + Wait + Sync>(rt: &T, alloc: Global) -> Result<Totals, Failure> {
    let opening = Account {
        opening: OPENING,
        balance: OPENING,
        moved_in: [0; WORKERS],
        moved_out: [0; WORKERS],
    };
    let accounts = vec![in alloc; opening; ACCOUNTS]?;
    let opened = open(alloc, WORKERS, accounts, 0, &[])?;
    run_on::<Brand, T>(rt, alloc, opened)
}

fn run_on<N: LotName<Account> + Send + Sync, T: Threads + Wait + Sync>(
    rt: &T,
    alloc: Global,
    opened: Opened<Account>,
) -> Result<Totals, Failure>
    requires named { IsNamed N.LotName opened }
    requires sizes { (opened.threads ≡ WORKERS) × (length opened.values ≡ ACCOUNTS) }
    requires even { AreEven opened.values }
{
    let Ok((lot, passes)) = start_with_passes::<Account, N, T>(rt, alloc, WORKERS, opened) else {
        return Err(Failure::NoMemory);
    };
    let move_all = |pass: Pass<Account, N>| -> Pass<Account, N>
        requires { IsSettled lot pass }
        ensures { IsSettled lot result }
    { work(rt, &lot, pass) };
    let (passes, worked) = work_together(rt, &move_all, passes);
    let room = leave_all(rt, &lot, passes);
    let accounts = end(rt, lot, room);
    if !worked {
        return Err(Failure::CannotStartWorker);
    }
    Ok(summed(&accounts))
}

/// The totals of these accounts, modulo 2^64.
fn summed(accounts: &[Account]) -> Totals {
    let mut totals = Totals { sum: 0, moved: 0 };
    for account in accounts {
        totals.sum = totals.sum.wrapping_add(account.balance);
        for number in account.moved_in.iter() {
            totals.moved = totals.moved.wrapping_add(*number);
        }
    }
    totals
}

/// One thread, with all its rounds: from each account in turn to the next.
fn work<N: LotName<Account> + Send, T: Wait>(
    rt: &T,
    lot: &Lot<Account, N>,
    pass: Pass<Account, N>,
) -> Pass<Account, N>
    requires settled { IsSettled lot.now pass }
    ensures { IsSettled lot.now result }
{
    let mut pass = pass;
    for round in 0..100usize {
        pass = transfer(rt, lot, pass, round % ACCOUNTS, (round + 1) % ACCOUNTS, 30).0;
    }
    pass
}
