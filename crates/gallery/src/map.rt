//! A map of counters over many locks: nothing is lost.
ghost use Rattle.std.specs.Prelude.{◌≡◌, ◌≢◌, ◌*◌, ◌+◌, ◌<◌, ◌≤◌, ◌^◌, ℕ, length, sum, slice_index, vec_len};
ghost use Rattle.std.specs.Prelude.{vec_capacity, IfOk};
ghost use Rattle.lot_sync.specs.Lot.{OwnsNone, HasShape};
ghost use Rattle.lot_sync.specs.Opened.{IsNamed, KeepAll};
ghost use Rattle.gallery.specs.Counters.{HasRows, IsNew, HasAdded, HasAddedBelow, row_of, added_by, total_of};
ghost use Rattle.gallery.specs.Counters.{AllCount, AreNew};

use crate::crew::{NOW, open};
use lot_calls::{close_with, start_with_room, take_all, with_lock, work_all};
use lot_command::Failure;
use lot_sync::{Lot, LotName, Opened, Pass};
use lot_words::Keeps;
use std::alloc::{AllocError, Global};
use std::marker::Brand;
use std::sync::Wait;
use std::thread::Threads;

const SHARDS: usize = 64;

/// How many counters lie in a shard.
const PLACES: usize = 16;

const WORKERS: usize = 4;

const COUNTERS: usize = SHARDS * PLACES;

/// What each worker added to the counters of a shard: a row for each worker, with a number for each counter.
#[derive(Clone, Copy, Drop)]
pub struct Shard {
    rows: [[u64; PLACES]; WORKERS],
}

impl Keeps for Shard {
    ghost use Rattle.std.specs.Prelude.{◌≡◌};
    ghost use Rattle.gallery.specs.Counters.{HasRows, row_of, added_by};

    type Part = [u64; PLACES];

    ghost keeps = { λ key shard. HasRows shard };

    ghost part = { λ thread shard. row_of thread shard };

    ghost rests = { λ rested. added_by rested.thread rested.seen ≡ 0 };

    ghost grows_itself = { λ shard. tt };

    ghost grows_on = { λ x y z p q. tt };
}

/// One more of this counter: the worker has added one more than before to it, and nothing to another, whoever came
/// between.
pub fn add<N: LotName<Shard> + Send, T: Wait>(
    rt: &T,
    lot: &Lot<Shard, N>,
    pass: Pass<Shard, N>,
    counter: usize,
) -> Pass<Shard, N>
    requires locks { lot.now.locks ≡ SHARDS }
    requires thread { pass.thread < WORKERS }
    requires counter { counter < COUNTERS }
    requires free { OwnsNone pass }
    requires shape { HasShape lot.now pass }
    requires few { added_by pass.thread pass.seen + 1 < 2 ^ 64 }
    ensures { HasAdded lot.now counter pass result }
{
    let place = counter / SHARDS;
    let thread = pass.thread();
    let raise = |shard: &mut Shard|
        requires bounds { (thread < WORKERS) × (place < PLACES) }
        requires rows { HasRows shard.old }
        requires few { slice_index (row_of thread shard.old) place + 1 < 2 ^ 64 }
        ensures rows { HasRows shard.new }
        ensures own { sum (row_of thread shard.new) ≡ sum (row_of thread shard.old) + 1 }
        ensures one { slice_index (row_of thread shard.new) place
            ≡ slice_index (row_of thread shard.old) place + 1 }
        ensures same { (p : ℕ) → p ≢ place
            → slice_index (row_of thread shard.new) p ≡ slice_index (row_of thread shard.old) p }
        ensures others { (t : ℕ) → t ≢ thread → row_of t shard.old ≡ row_of t shard.new }
    {
        let mut row = shard.rows[thread];
        row[place] += 1;
        shard.rows[thread] = row;
    };
    with_lock(rt, lot, pass, counter % SHARDS, NOW, raise).0
}

/// A worker adds one to each counter.
fn work<N: LotName<Shard> + Send, T: Wait>(
    rt: &T,
    lot: &Lot<Shard, N>,
    pass: Pass<Shard, N>,
) -> Pass<Shard, N>
    requires { IsNew lot.now pass }
    ensures { HasAddedBelow lot.now COUNTERS pass result }
{
    let mut pass = pass;
    for counter in 0..COUNTERS {
        pass = add(rt, lot, pass, counter);
    }
    pass
}

/// Four workers add one to each counter, and the lot ends: each counter came to four, and all to what they added.
pub fn count_all<N: LotName<Shard> + Send + Sync, T: Threads + Wait + Sync>(
    rt: &T,
    mut lot: Lot<Shard, N>,
    mut passes: Vec<Pass<Shard, N>>,
) -> Vec<Shard>
    requires sizes { (lot.locks ≡ SHARDS) × (lot.threads ≡ WORKERS) }
    requires room { (vec_len passes ≡ 0) × (lot.threads ≤ vec_capacity passes) }
    ensures total { total_of result.items ≡ WORKERS * COUNTERS }
    ensures each { AllCount WORKERS result.items }
{
    take_all(rt, &mut lot, &mut passes);
    let add_all = |pass: Pass<Shard, N>| -> Pass<Shard, N>
        requires { IsNew lot pass }
        ensures { HasAddedBelow lot COUNTERS pass result }
    { work(rt, &lot, pass) };
    work_all(rt, &add_all, &mut passes);
    close_with(rt, lot, passes).0
}

/// As many shards, to which nobody has added anything yet.
fn new_shards(alloc: Global, count: usize) -> Result<Vec<Shard>, AllocError>
    ensures count { IfOk result (λ shards. vec_len shards ≡ count) }
    ensures rows { IfOk result (λ shards. KeepAll (λ key shard. HasRows shard) shards.items) }
    ensures new { IfOk result (λ shards. AreNew shards.items) }
{
    let rows = [[0; PLACES]; WORKERS];
    let shards = vec![in alloc; Shard { rows }; count]?;
    Ok(shards)
}

/// Workers add to all counters. Answers what these came to.
pub fn run<T: Threads + Wait + Sync>(rt: &T, alloc: Global) -> Result<u64, Failure> {
    let shards = new_shards(alloc, SHARDS)?;
    let opened = open(alloc, WORKERS, shards, 0, &[])?;
    run_on::<Brand, T>(rt, alloc, opened)
}

fn run_on<N: LotName<Shard> + Send + Sync, T: Threads + Wait + Sync>(
    rt: &T,
    alloc: Global,
    opened: Opened<Shard>,
) -> Result<u64, Failure>
    requires named { IsNamed N.LotName opened }
    requires sizes { (opened.threads ≡ WORKERS) × (length opened.values ≡ SHARDS) }
    requires new { AreNew opened.values }
{
    let Ok((lot, room)) = start_with_room::<Shard, N>(alloc, WORKERS, opened) else {
        return Err(Failure::NoMemory);
    };
    let shards = count_all(rt, lot, room);
    Ok(total(&shards))
}

/// What all workers added to all counters, modulo 2^64.
fn total(shards: &Vec<Shard>) -> u64 {
    let mut total = 0u64;
    for shard in shards {
        for row in shard.rows.iter() {
            for number in row.iter() {
                total = total.wrapping_add(*number);
            }
        }
    }
    total
}
