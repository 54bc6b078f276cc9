//! A memo cache over 64 locks: what is got for a key is what the function gives, whoever computed it.
ghost use Rattle.std.specs.Prelude.{◌≡◌, ◌*◌, ◌%◌, ◌<◌, length, IfOk, IfSome};
ghost use Rattle.lot_sync.specs.Lot.{OwnsNone};
ghost use Rattle.lot_sync.specs.Opened.{IsNamed};

use crate::crew::{NOW, end, open};
use lot_calls::{start_with_passes, with_lock, work_together};
use lot_command::Failure;
use lot_sync::{Lot, LotName, Opened, Pass};
use lot_words::Keeps;
use std::alloc::{AllocError, Global};
use std::marker::Brand;
use std::sync::Wait;
use std::thread::Threads;

const SHARDS: usize = 64;

/// How many values a shard keeps.
const PLACES: usize = 16;

const WORKERS: usize = 4;

/// The function whose values are kept.
fn compute(key: u64) -> u64
    ensures { result ≡ (key % 1000) * (key % 1000) }
{
    let last = key % 1000;
    last * last
}

/// What the function gives for a key.
#[derive(Clone, Copy, Drop)]
pub struct Known {
    key: u64,
    value: u64,
    ghost right: { value ≡ (key % 1000) * (key % 1000) },
}

/// The values that a lock guards: each has a place by its key, where a later one takes it.
#[derive(Clone, Copy, Drop)]
pub struct Shard {
    known: [Option<Known>; PLACES],
}

impl Keeps for Shard {
    type Part = ();

    ghost part = { λ thread shard. tt };

    ghost grows_itself = { λ shard. tt };

    ghost grows_on = { λ x y z p q. tt };
}

impl Shard {
    /// The value that is kept for the key, if there is one.
    fn find(&self, key: u64) -> Option<u64>
        ensures { IfSome result (λ value. value ≡ (key % 1000) * (key % 1000)) }
    {
        let kept = self.known[place_of(key)];
        if let Some(known) = kept {
            if known.key == key {
                return Some(known.value);
            }
        }
        None
    }
}

/// The number of the key's lock.
fn shard_of(key: u64) -> usize
    ensures { result < SHARDS }
{
    (key % SHARDS as u64) as usize
}

/// The place of the key in its shard.
fn place_of(key: u64) -> usize
    ensures { result < PLACES }
{
    (key / SHARDS as u64 % PLACES as u64) as usize
}

/// The right of a thread that asks.
type User<N> = Pass<Shard, N>;

/// The cache, as its threads see it.
#[derive(Drop)]
pub struct Memo<'a, N: LotName<Shard> + Send> {
    lot: &'a Lot<Shard, N>,
    ghost sizes: { lot.now.locks ≡ 64 },
}

impl<N: LotName<Shard> + Send> Memo<'_, N> {
    /// What the function gives for the key: kept, or computed with no lock held, and kept from then on.
    pub fn get<T: Wait>(&self, rt: &T, pass: User<N>, key: u64) -> (User<N>, u64)
        requires free { OwnsNone pass }
        ensures free { OwnsNone result.0 }
        ensures gives { result.1 ≡ (key % 1000) * (key % 1000) }
    {
        let find = |shard: &mut Shard| -> Option<u64>
            ensures same { shard.new ≡ shard.old }
            ensures right { IfSome result (λ value. value ≡ (key % 1000) * (key % 1000)) }
        { shard.find(key) };
        let (pass, found) = with_lock(rt, self.lot, pass, shard_of(key), NOW, find);
        if let Some(value) = found {
            return (pass, value);
        }
        let known = Known {
            key,
            value: compute(key),
        };
        let value = known.value;
        let keep = |shard: &mut Shard| {
            shard.known[place_of(key)] = Some(known);
        };
        let (pass, ()) = with_lock(rt, self.lot, pass, shard_of(key), NOW, keep);
        (pass, value)
    }

    /// One thread, which asks for as many keys as there are places.
    fn work<T: Wait>(&self, rt: &T, pass: User<N>) -> User<N>
        requires free { OwnsNone pass }
        ensures { OwnsNone result }
    {
        let mut pass = pass;
        for key in 0..(SHARDS * PLACES) as u64 {
            pass = self.get(rt, pass, key).0;
        }
        pass
    }
}

/// All shards, in which nothing is known yet.
fn new_shards(alloc: Global) -> Result<Vec<Shard>, AllocError>
    ensures { IfOk result (λ shards. length shards.items ≡ SHARDS) }
{
    let known = [None; PLACES];
    let shards = vec![in alloc; Shard { known }; SHARDS]?;
    Ok(shards)
}

/// Threads ask for all keys. Answers the sum of what is known in the end.
pub fn run<T: Threads + Wait + Sync>(rt: &T, alloc: Global) -> Result<u64, Failure> {
    let shards = new_shards(alloc)?;
    let opened = open(alloc, WORKERS, shards, 0, &[])?;
    run_on::<Brand, T>(rt, alloc, opened)
}

fn run_on<N: LotName<Shard> + Send + Sync, T: Threads + Wait + Sync>(
    rt: &T,
    alloc: Global,
    opened: Opened<Shard>,
) -> Result<u64, Failure>
    requires named { IsNamed N.LotName opened }
    requires sizes { (opened.threads ≡ WORKERS) × (length opened.values ≡ 64) }
{
    let Ok((lot, passes)) = start_with_passes::<Shard, N, T>(rt, alloc, WORKERS, opened) else {
        return Err(Failure::NoMemory);
    };
    let memo = Memo { lot: &lot };
    let ask_all = |pass: User<N>| -> User<N>
        requires { OwnsNone pass }
        ensures { OwnsNone result }
    { memo.work(rt, pass) };
    let (passes, worked) = work_together(rt, &ask_all, passes);
    let shards = end(rt, lot, passes, worked)?;
    Ok(sum_of(&shards))
}

/// The sum of all that is known, modulo 2^64.
fn sum_of(shards: &Vec<Shard>) -> u64 {
    let mut sum = 0u64;
    for shard in shards {
        for known in shard.known.iter().flatten() {
            sum = sum.wrapping_add(known.value);
        }
    }
    sum
}
