//! Tests of what a lot counts of its keys.
ghost use Rattle.std.specs.Prelude.{◌≡◌, ℕ, ◌+◌, ◌<◌, ◌≤◌, ◌%◌, ◌^◌, length, vec_len, vec_capacity, slice_get, Some};
ghost use Rattle.std.specs.List.{All, Any};
ghost use Rattle.lot_rights.specs.History.{tokens_of};
ghost use Rattle.lot_whole.specs.Order.{queued_in};
ghost use Rattle.lot_sync.specs.Closing.{HasOneRun};
ghost use Rattle.lot_sync.specs.Lot.{PassView, OwnsNone};
ghost use Rattle.lot_sync.specs.Opened.{IsNamed};
ghost use Rattle.lot_trials.specs.Order.{IsToldOf};

use crate::asserts::{copies, equal, failed, is_so, room_for};
use crate::counts::{Count, await_count, await_line, own, release, release_fairly};
use crate::passes::{enter, open};
use lot_calls::take_all;
use lot_sync::{Contention, Lot, LotName, Opened, Pass, Released};
use std::alloc::Global;
use std::marker::Brand;
use std::process::Abort;
use std::sync::Wait;
use std::sync::atomic::{AtomicU64, Ordering};
use std::thread;
use std::thread::Threads;

/// What is counted where so many parked, at most one at a time, of whom so many were taken, and handed the lock.
fn counted(parked: u64, taken: u64, handed: u64) -> Contention {
    Contention {
        parked,
        taken,
        handed,
        again: 0,
        longest: parked,
    }
}

/// Owns lock 1 until another thread sleeps there, and hands it over, or leaves it to whoever comes.
fn hold<N: LotName<Count> + Send + Sync, T: Wait + Abort>(
    rt: &T,
    lot: &Lot<Count, N, Contention>,
    owned: &AtomicU64,
    fairly: bool,
)
    requires locks { 1 < lot.now.locks }
{
    let pass = enter(rt, lot);
    let (pass, held) = own(rt, lot, pass, 1);
    equal(rt, lot.contention(rt, 1), counted(0, 0, 0));
    owned.store(1, Ordering::SeqCst);
    await_line(rt, lot, 1, 1);
    equal(rt, lot.contention(rt, 1), counted(1, 0, 0));
    let (pass, released) = if fairly {
        release_fairly(rt, lot, pass, held)
    } else {
        release(rt, lot, pass, held, 0)
    };
    let wanted = if fairly {
        Released::Handed
    } else {
        Released::Woke
    };
    equal(rt, released, wanted);
    lot.leave(rt, pass);
}

/// Sleeps on lock 1 until it is had.
fn sleep_once<N: LotName<Count> + Send + Sync, T: Wait + Abort>(
    rt: &T,
    lot: &Lot<Count, N, Contention>,
    owned: &AtomicU64,
)
    requires locks { 1 < lot.now.locks }
{
    await_count(rt, owned, 1);
    let pass = enter(rt, lot);
    let (pass, held) = own(rt, lot, pass, 1);
    let (pass, _) = release(rt, lot, pass, held, 0);
    lot.leave(rt, pass);
}

/// What a caller concludes at the end: of each key as many parked as the one history has entries that queued a thread
/// there, and as many were taken as it has tokens of the key.
fn close_told<N: LotName<Count> + Send, T: Wait>(
    rt: &T,
    lot: Lot<Count, N, Contention>,
    passes: Vec<Pass<Count, N>>,
) -> Vec<Contention>
    requires count { vec_len passes ≡ lot.threads }
    requires all { (t : ℕ) → t < lot.threads → Any (λ (p : PassView Count). p.thread ≡ t) passes.items }
    requires free { All OwnsNone passes.items }
    ensures told { (run : HasOneRun N.LotName passes.items) × ((key : ℕ) (c : Contention)
        → slice_get result.items key ≡ Some c
        → (c.parked ≡ queued_in key run.told.recounted.log % 2 ^ 64)
        × (c.taken ≡ length (tokens_of key run.told.recounted.log) % 2 ^ 64)) }
    ensures each { vec_len result ≡ lot.locks + lot.conds + lot.sems }
{
    let (_, _, counts) = lot.close_counted(rt, passes);
    counts
}

/// Counts lock 1 with the one pass of the lot, which is closed then. What a caller concludes: where this stands in the
/// one history, and that the answer tells of what came before it.
fn note_told<N: LotName<Count> + Send, T: Wait>(
    rt: &T,
    lot: Lot<Count, N, Contention>,
    pass: Pass<Count, N>,
    mut passes: Vec<Pass<Count, N>>,
) -> Contention
    requires sizes { (lot.threads ≡ 1) × (1 < lot.locks) }
    requires thread { pass.thread < 1 }
    requires free { OwnsNone pass }
    requires room { (vec_len passes ≡ 0) × (1 ≤ vec_capacity passes) }
    ensures { IsToldOf N.LotName pass.thread 1 result }
{
    let (pass, noted) = lot.note_contention(rt, pass, 1);
    lot_whole::laws::counts_follow();
    passes.push_reserved(pass);
    let (_, _, _) = lot.close_counted(rt, passes);
    noted
}

/// One thread lets lock 1 go while another sleeps there; then the lot is closed.
fn counts_of<N: LotName<Count> + Send + Sync, T: Threads + Wait + Sync + Abort>(
    rt: &T,
    alloc: Global,
    opened: Opened<Count>,
    fairly: bool,
) -> Vec<Contention>
    requires named { IsNamed N.LotName opened }
    requires sizes { (opened.threads ≡ 2) × (length opened.values ≡ 2) }
{
    let mut passes = room_for(rt, alloc, 2);
    let Ok(mut lot) = opened.start_counting::<N>(alloc) else {
        failed(rt, "not started")
    };
    let owned = AtomicU64::new(0);
    let holds = ||
        requires locks { 1 < lot.locks }
    { hold(rt, &lot, &owned, fairly) };
    let sleeps = ||
        requires locks { 1 < lot.locks }
    { sleep_once(rt, &lot, &owned) };
    thread::join(rt, holds, sleeps);
    take_all(rt, &mut lot, &mut passes);
    close_told(rt, lot, passes)
}

fn check_counts<T: Threads + Wait + Sync + Abort>(
    rt: &T,
    alloc: Global,
    fairly: bool,
    handed: u64,
) {
    let values = copies(rt, alloc, Count { n: 7 }, 2);
    let opened = open(rt, alloc, 2, values, 0);
    let counts = counts_of::<Brand, T>(rt, alloc, opened, fairly);
    is_so(rt, counts.len() == 2, "each key is told of");
    equal(rt, counts[0], counted(0, 0, 0));
    equal(rt, counts[1], counted(1, 1, handed));
}

/// Starts a lot of one thread, and counts there.
fn noted<N: LotName<Count> + Send + Sync, T: Wait + Abort>(
    rt: &T,
    alloc: Global,
    opened: Opened<Count>,
) -> Contention
    requires named { IsNamed N.LotName opened }
    requires sizes { (opened.threads ≡ 1) × (length opened.values ≡ 2) }
{
    let passes = room_for(rt, alloc, 1);
    let Ok(lot) = opened.start_counting::<N>(alloc) else {
        failed(rt, "not started")
    };
    let pass = enter(rt, &lot);
    note_told(rt, lot, pass, passes)
}

#[test]
fn a_count_stands_in_the_history(rt: HostRuntime) {
    let values = copies(&rt, rt.alloc(), Count { n: 7 }, 2);
    let opened = open(&rt, rt.alloc(), 1, values, 0);
    let seen = noted::<Brand, HostRuntime>(&rt, rt.alloc(), opened);
    equal(&rt, seen, counted(0, 0, 0));
}

#[test]
fn a_lot_counts_who_parked_and_who_was_handed_the_lock(rt: HostRuntime) {
    check_counts(&rt, rt.alloc(), false, 0);
    check_counts(&rt, rt.alloc(), true, 1);
}
