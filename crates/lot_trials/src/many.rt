//! Lots of many keys: what is refused of them, that their table never grows, that a sleeper on the last of a million
//! keys is handed its lock, and what the program prints of them.
ghost use Rattle.std.specs.Prelude.{◌≡◌, length, vec_len};
ghost use Rattle.lot_sync.specs.Opened.{IsNamed};

use crate::asserts::{copies, equal, failed, is_so};
use crate::counts::{
    Count, Gathered, await_count, await_line, end, own, raise, release, release_fairly,
};
use crate::passes::{enter, start};
use crate::texts::{check_refusals, check_runs};
use lot_sync::{Lot, LotName, MOST_CONDS, MOST_KEYS, OpenFault, Opened, Released};
use std::alloc::Global;
use std::marker::Brand;
use std::process::Abort;
use std::sync::Wait;
use std::sync::atomic::{AtomicU64, Ordering};
use std::thread;
use std::thread::Threads;

/// A million keys, and the last of them.
const MILLION: usize = 1_000_000;

const LAST: usize = 999_999;

/// A number of keys that is just too large for `open`, and for a table that grows.
const MANY: usize = 1025;

/// Threads, locks and conditions that `open_many` refuses.
const REFUSED: [(usize, usize, usize, OpenFault); 6] = [
    (0, 1, 0, OpenFault::BadThreads),
    (257, 1, 0, OpenFault::BadThreads),
    (1, 0, 0, OpenFault::BadKeys),
    (1, MOST_KEYS + 1, 0, OpenFault::BadKeys),
    (1, MOST_KEYS, 1, OpenFault::BadKeys),
    (1, 1, MOST_CONDS + 1, OpenFault::BadKeys),
];

/// So many counts, each of which is the number of its key, or the test fails.
fn counts(rt: &impl Abort, alloc: Global, count: usize) -> Vec<Count>
    ensures { vec_len result ≡ count }
{
    let mut values = copies(rt, alloc, Count { n: 0 }, count);
    number(values.as_mut_slice());
    values
}

/// Gives each count the number of its key.
fn number(values: &mut [Count]) {
    for key in 0..values.len() {
        values[key] = Count { n: key as u64 };
    }
}

/// Each count is the number of its key still, or the test fails.
fn are_numbered(rt: &impl Abort, values: &[Count]) {
    for (key, value) in values.iter().enumerate() {
        equal(rt, value.n, key as u64);
    }
}

/// The opening was refused so, and so many values came back.
pub(crate) fn is_refused(
    rt: &impl Abort,
    opened: Result<Opened<Count>, (OpenFault, Vec<Count>)>,
    want: (OpenFault, usize),
) {
    match opened {
        Ok(_opened) => failed(rt, "opened"),
        Err((fault, values)) => {
            equal(rt, fault, want.0);
            equal(rt, values.len(), want.1);
        }
    }
}

#[test]
fn bad_limits_of_many_keys(rt: HostRuntime) {
    let alloc = rt.alloc();
    for (threads, locks, conds, want) in REFUSED {
        let values = counts(&rt, alloc, locks);
        let opened = Lot::<Count, Brand>::open_many(alloc, threads, values, conds, &[]);
        is_refused(&rt, opened, (want, locks));
    }
    let values = counts(&rt, alloc, MOST_KEYS);
    let opened = Lot::<Count, Brand>::open_many(alloc, 1, values, 0, &[1]);
    is_refused(&rt, opened, (OpenFault::BadKeys, MOST_KEYS));
}

#[test]
fn other_openings_refuse_many_keys(rt: HostRuntime) {
    let alloc = rt.alloc();
    let opened = Lot::<Count, Brand>::open(alloc, 1, counts(&rt, alloc, MANY), 0);
    is_refused(&rt, opened, (OpenFault::BadKeys, MANY));
    let opened = Lot::<Count, Brand>::open_with(alloc, 1, counts(&rt, alloc, MANY), 0, &[]);
    is_refused(&rt, opened, (OpenFault::BadKeys, MANY));
    let opened = Lot::<Count, Brand>::open_with(alloc, 1, counts(&rt, alloc, 1024), 0, &[1]);
    is_refused(&rt, opened, (OpenFault::BadKeys, 1024));
}

// The values come back, also where a request for memory is refused.
#[test]
fn all_values_of_many_come_back_in_order(rt: HostRuntime) {
    let Ok(mut values) = vec![in rt.alloc(); Count { n: 0 }; MANY] else {
        return;
    };
    number(values.as_mut_slice());
    let values = match Lot::<Count, Brand>::open_many(rt.alloc(), 1, values, 0, &[]) {
        Ok(opened) => opened.close(),
        Err((fault, values)) => {
            equal(&rt, fault, OpenFault::NoMemory);
            values
        }
    };
    equal(&rt, values.len(), MANY);
    are_numbered(&rt, values.as_slice());
}

/// Threads and locks, and how many buckets the table has from the start, however many passes are out.
const TABLES: [(usize, usize, usize); 4] = [
    (1, MANY, 3),
    (2, MANY, 12),
    (64, 20_000, 384),
    (256, MANY, 1536),
];

/// Registers all threads of a lot whose table has this size all along.
fn table_stays<N: LotName<Count> + Send + Sync, T: Wait + Abort>(
    rt: &T,
    alloc: Global,
    opened: Opened<Count>,
    threads: usize,
    size: usize,
)
    requires named { IsNamed N.LotName opened }
    requires threads { opened.threads ≡ threads }
{
    let (lot, passes) = start::<Count, N, T>(rt, alloc, threads, opened);
    equal(rt, lot.table_size(rt), size);
    let (values, _) = end(rt, lot, passes, threads, Gathered::RegisteredAt(size));
    are_numbered(rt, values.as_slice());
}

/// The same, of a lot of so many threads and locks.
fn table_of_many_stays<T: Wait + Abort>(
    rt: &T,
    alloc: Global,
    threads: usize,
    locks: usize,
    size: usize,
) {
    let values = counts(rt, alloc, locks);
    match Lot::<Count, Brand>::open_many(alloc, threads, values, 0, &[]) {
        Ok(opened) => table_stays::<Brand, T>(rt, alloc, opened, threads, size),
        Err(_) => failed(rt, "not opened"),
    }
}

#[test]
fn a_table_of_many_keys_never_grows(rt: HostRuntime) {
    for (threads, locks, size) in TABLES {
        table_of_many_stays(&rt, rt.alloc(), threads, locks, size);
    }
}

/// Owns the last lock until another thread sleeps there, and hands it over.
fn hand_over<N: LotName<Count> + Send + Sync, T: Wait + Abort>(
    rt: &T,
    lot: &Lot<Count, N>,
    owned: &AtomicU64,
)
    requires locks { lot.now.locks ≡ MILLION }
{
    let pass = enter(rt, lot);
    let (pass, held) = own(rt, lot, pass, LAST);
    let (pass, held) = raise(rt, pass, held, 7);
    owned.store(1, Ordering::SeqCst);
    await_line(rt, lot, LAST, 1);
    let (pass, released) = release_fairly(rt, lot, pass, held);
    equal(rt, released, Released::Handed);
    lot.leave(rt, pass);
}

/// Sleeps on the last lock until it is handed over.
fn be_handed<N: LotName<Count> + Send + Sync, T: Wait + Abort>(
    rt: &T,
    lot: &Lot<Count, N>,
    owned: &AtomicU64,
)
    requires locks { lot.now.locks ≡ MILLION }
{
    await_count(rt, owned, 1);
    let pass = enter(rt, lot);
    let (pass, held) = own(rt, lot, pass, LAST);
    let (pass, held) = raise(rt, pass, held, 8);
    // (a handoff leaves the lock marked as parked)
    let (pass, released) = release(rt, lot, pass, held, 0);
    equal(rt, released, Released::Nobody);
    lot.leave(rt, pass);
}

/// One thread hands the last lock to another, which sleeps there; then the lot is closed.
fn handed<N: LotName<Count> + Send + Sync, T: Threads + Wait + Sync + Abort>(
    rt: &T,
    alloc: Global,
    opened: Opened<Count>,
) -> Vec<Count>
    requires named { IsNamed N.LotName opened }
    requires sizes { (opened.threads ≡ 2) × (length opened.values ≡ MILLION) }
{
    let (lot, passes) = start::<Count, N, T>(rt, alloc, 2, opened);
    let owned = AtomicU64::new(0);
    let hands = ||
        requires locks { lot.locks ≡ MILLION }
    { hand_over(rt, &lot, &owned) };
    let sleeps = ||
        requires locks { lot.locks ≡ MILLION }
    { be_handed(rt, &lot, &owned) };
    thread::join(rt, hands, sleeps);
    let (values, _) = end(rt, lot, passes, 2, Gathered::Left);
    values
}

#[test]
fn a_sleeper_on_the_last_of_a_million_keys_is_handed_its_lock(rt: HostRuntime) {
    let values = copies(&rt, rt.alloc(), Count { n: 7 }, MILLION);
    match Lot::<Count, Brand>::open_many(rt.alloc(), 2, values, 0, &[]) {
        Ok(opened) => {
            let values = handed::<Brand, HostRuntime>(&rt, rt.alloc(), opened);
            is_so(&rt, values.len() == MILLION, "all values come back");
            equal(&rt, (values[0].n, values[LAST].n), (7, 9));
        }
        Err(_) => failed(&rt, "not opened"),
    }
}

static MANIES: [(&str, &str, &str); 6] = [
    (
        "two threads on one key",
        "many 2 1 1000 7",
        "keys 1 total 2000\nsum 2000\n",
    ),
    ("no rounds", "many 1 1 0 0", "keys 1 total 0\nsum 0\n"),
    (
        "a key more than a script may have",
        "many 4 1025 100 18446744073709551615",
        "keys 1025 total 400\nsum 400\n",
    ),
    (
        "64 threads on 13 keys",
        "many 64 13 100 7",
        "keys 13 total 6400\nsum 6400\n",
    ),
    (
        "256 threads",
        "many 256 100000 10 9",
        "keys 100000 total 2560\nsum 2560\n",
    ),
    (
        "a million keys",
        "many 4 1000000 1000 7",
        "keys 1000000 total 4000\nsum 4000\n",
    ),
];

static WRONG_MANIES: [(&str, &str); 9] = [
    ("no keys", "many 1 0 1 1"),
    ("10000001 keys", "many 1 10000001 1 1"),
    ("keys with a leading zero", "many 1 01 1 1"),
    ("many of no threads", "many 0 1 1 1"),
    ("many of 257 threads", "many 257 1 1 1"),
    ("many of 10001 rounds", "many 1 1 10001 1"),
    ("many of a seed of 2^64", "many 1 1 1 18446744073709551616"),
    ("many without a seed", "many 1 1 1"),
    ("many with a word too many", "many 1 1 1 1 1"),
];

#[test]
fn all_rounds_on_many_keys_are_counted(rt: HostRuntime) {
    check_refusals(&rt, rt.alloc(), &WRONG_MANIES);
    check_runs(&rt, rt.alloc(), &MANIES);
}
