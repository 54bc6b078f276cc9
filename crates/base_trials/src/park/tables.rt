//! The table of buckets: it grows as threads come, and each line keeps its order.
ghost use Rattle.std.specs.Prelude.{◌≡◌, ℕ, ◌<◌, ◌≤◌, length, drop};
ghost use Rattle.lot_bucket.specs.Queue.{line_of, first_of};
ghost use Rattle.lot_bucket.specs.Settled.{IsReadyFor, Stays};

use super::askings::{ASKINGS, is_within};
use super::rights::{EARLY, Right, idle_rights, joined};
use crate::asserts::{equal, equal_in, failed, is_so};
use lot_bucket::{Bucket, Root};
use lot_table::{Grown, MOST_THREADS, Table, grown_size};
use std::alloc::Global;
use std::process::Abort;
use std::sync::Wait;
use std::sync::atomic::{AtomicU64, Ordering};
use std::thread;
use std::thread::{Threads, join};

const THREADS: usize = MOST_THREADS;

const KEYS: usize = 26;

fn made(rt: &impl Abort, alloc: Global) -> Table<Right>
    ensures threads { result.threads ≡ THREADS }
    ensures keys { result.keys ≡ KEYS }
{
    let rights = idle_rights(alloc, KEYS).expect(rt, "memory");
    match Table::new(alloc, THREADS, rights) {
        Ok((table, room)) => {
            room.destroy_empty();
            table
        }
        Err(_refused) => failed(rt, "memory"),
    }
}

fn ensured<R: Wait + Abort>(rt: &R, table: &Table<Right>, threads: usize) -> Grown
    requires { threads ≤ table.now.threads }
{
    match table.ensure(rt, threads) {
        Ok(served) => served.grown(),
        Err(_refused) => failed(rt, "memory"),
    }
}

// Ends the table, and looks whether each key's right came back in its turn.
fn end<R: Wait + Abort>(rt: &R, alloc: Global, table: Table<Right>)
    requires { table.keys ≡ KEYS }
{
    let mut rights = Vec::with_capacity(alloc, KEYS).expect(rt, "memory");
    table.close(rt, &mut rights);
    equal(rt, rights.len(), KEYS);
    for (key, right) in rights.iter().enumerate() {
        equal(rt, right.key, key);
    }
}

// Each with what becomes of the table, once the threads before have come one by one.
static GROWTHS: [(usize, Grown); 9] = [
    (1, Grown::Kept(3)),
    (2, Grown::Grew(3, 12)),
    (5, Grown::Grew(12, 30)),
    (11, Grown::Grew(30, 66)),
    (23, Grown::Grew(66, 138)),
    (47, Grown::Grew(138, 282)),
    (95, Grown::Grew(282, 570)),
    (191, Grown::Grew(570, 1146)),
    (MOST_THREADS, Grown::Kept(1146)),
];

fn expect_growth(rt: &impl Abort, threads: usize, grown: Grown, size: usize) {
    for (at, expected) in &GROWTHS {
        if *at == threads {
            equal_in(rt, grown, *expected, threads);
        }
    }
    match grown {
        Grown::Kept(kept) => equal_in(rt, kept, size, threads),
        Grown::Grew(_before, after) => equal_in(rt, after, size, threads),
    }
}

#[test]
fn it_grows_as_threads_come(rt: HostRuntime) {
    let table = made(&rt, rt.alloc());
    equal(&rt, table.size(&rt), 3);
    for threads in 1..THREADS + 1 {
        let before = table.size(&rt);
        let grown = ensured(&rt, &table, threads);
        let size = table.size(&rt);
        equal(&rt, size, grown_size(before, threads));
        expect_growth(&rt, threads, grown, size);
    }
    end(&rt, rt.alloc(), table);
}

// Queues the thread on the key, in the bucket and in the root's line.
fn join_in(rt: &impl Abort, bucket: &mut Bucket<Right>, key: usize, thread: usize)
    requires ready { (threads keys : ℕ) × IsReadyFor ⟦<Right as Root>⟧.view key threads keys bucket.old }
    requires room { length bucket.old.queue < bucket.old.room }
    ensures { Stays ⟦<Right as Root>⟧.view bucket.old bucket.new }
{
    let right = bucket.take_root(key);
    let right = joined(rt, right, thread);
    bucket.enqueue(thread, key);
    bucket.put_root(key, right);
}

fn queue_up<R: Wait + Abort>(rt: &R, table: &Table<Right>, thread: usize, key: usize) {
    let work = |bucket: &mut Bucket<Right>, x: ()| {
        join_in(rt, bucket, key, thread);
        (x, ())
    };
    let (((), ()), _unlocked) = table.with_place_for(rt, key, thread, (), work);
}

// The right without the first thread of its line.
fn advanced(right: Right) -> Right
    ensures key { result.key ≡ right.key }
    ensures line { result.line.items ≡ drop 1 right.line.items }
    ensures owes { result.owes.items ≡ right.owes.items }
{
    let mut right = right;
    if !right.line.is_empty() {
        right.line.remove(0);
    }
    right
}

// Takes the first thread of the key, from the bucket and from the root's line.
fn leave_from(bucket: &mut Bucket<Right>, key: usize) -> Option<usize>
    requires { (threads keys : ℕ) × IsReadyFor ⟦<Right as Root>⟧.view key threads keys bucket.old }
    ensures first { result ≡ first_of (line_of key bucket.old.queue) }
    ensures stays { Stays ⟦<Right as Root>⟧.view bucket.old bucket.new }
{
    let right = bucket.take_root(key);
    let taken = bucket.dequeue_one(key, EARLY).thread;
    bucket.put_root(key, advanced(right));
    taken
}

fn left_first<W: Wait>(rt: &W, table: &Table<Right>, key: usize) -> Option<usize> {
    let ((), taken) = table.with_bucket(
        rt,
        key,
        (),
        |bucket: &mut Bucket<Right>, x: ()| (x, leave_from(bucket, key)),
    );
    taken
}

fn waiting<W: Wait>(rt: &W, table: &Table<Right>, key: usize) -> usize {
    let ((), count) = table.with_bucket(rt, key, (), |bucket: &mut Bucket<Right>, x: ()| {
        (x, bucket.len())
    });
    count
}

// Queues three threads on two keys of a bucket, and then the table grows, so that each key has a bucket of its own.
fn grow_under_two_lines<R: Wait + Abort>(rt: &R, table: &Table<Right>)
    requires { table.now.threads ≡ THREADS }
{
    equal(rt, ensured(rt, table, 2), Grown::Grew(3, 12));
    queue_up(rt, table, 1, 13);
    queue_up(rt, table, 2, 1);
    queue_up(rt, table, 3, 13);
    equal(rt, waiting(rt, table, 1), 3);
    equal(rt, ensured(rt, table, 5), Grown::Grew(12, 30));
    equal(rt, (waiting(rt, table, 13), waiting(rt, table, 1)), (2, 1));
}

// Takes the threads of the key one by one, and looks who they are.
fn expect_leaving<W: Wait + Abort>(rt: &W, table: &Table<Right>, key: usize, line: &[usize]) {
    for thread in line {
        equal(rt, left_first(rt, table, key), Some(*thread));
    }
    equal(rt, left_first(rt, table, key), None);
}

#[test]
fn each_line_keeps_its_order_in_a_growth(rt: HostRuntime) {
    let table = made(&rt, rt.alloc());
    grow_under_two_lines(&rt, &table);
    expect_leaving(&rt, &table, 13, &[1, 3]);
    expect_leaving(&rt, &table, 1, &[2]);
    end(&rt, rt.alloc(), table);
}

// What two growers answer, of whom one wants room for 5 threads and the other for 6, where the table grew to this size.
fn wanted_answers(rt: &impl Abort, size: usize) -> (Grown, Grown) {
    match size {
        30 => (Grown::Grew(12, 30), Grown::Kept(30)),
        36 => (Grown::Kept(36), Grown::Grew(12, 36)),
        _ => panic!(rt; "grew to {size}"),
    }
}

#[test]
fn two_growers_agree(rt: HostRuntime) {
    let table = made(&rt, rt.alloc());
    equal(&rt, ensured(&rt, &table, 2), Grown::Grew(3, 12));
    let answers = grown_by_two(&rt, &table);
    equal(&rt, answers, wanted_answers(&rt, table.size(&rt)));
    end(&rt, rt.alloc(), table);
}

fn grown_by_two<R: Threads + Wait + Abort + Sync>(rt: &R, table: &Table<Right>) -> (Grown, Grown)
    requires { table.now.threads ≡ THREADS }
{
    join(rt, || ensured(rt, table, 5), || ensured(rt, table, 6))
}

// Whether the bucket of the newest version is found locked.
fn is_locked_within(table: &Table<Right>, number: usize) -> bool {
    for _ in 0..ASKINGS {
        if table.is_locked(number) {
            return true;
        }
        thread::yield_now();
    }
    false
}

fn is_open<W: Wait>(rt: &W, table: &Table<Right>, key: usize) -> bool {
    let ((), open) = table.with_bucket(rt, key, (), |bucket: &mut Bucket<Right>, x: ()| {
        (x, bucket.is_open())
    });
    open
}

// Holds bucket 1 until bucket 0 is found locked, and then looks whether bucket 2 is open.
fn look_while_held<W: Wait>(rt: &W, table: &Table<Right>, held: &AtomicU64) -> (bool, bool) {
    let ((), seen) = table.with_bucket(rt, 1, (), |_bucket: &mut Bucket<Right>, x: ()| {
        held.store(1, Ordering::SeqCst);
        let locked = is_locked_within(table, 0);
        (x, (locked, is_open(rt, table, 2)))
    });
    seen
}

// Lets the table grow for five threads once bucket 1 is held.
fn grow_once_held<R: Wait + Abort>(rt: &R, table: &Table<Right>, held: &AtomicU64) -> Option<Grown>
    requires { table.now.threads ≡ THREADS }
{
    if is_within(held, 1, ASKINGS) {
        Some(ensured(rt, table, 5))
    } else {
        None
    }
}

fn grow_while_held<R: Threads + Wait + Abort + Sync>(
    rt: &R,
    table: &Table<Right>,
) -> ((bool, bool), Option<Grown>)
    requires { table.now.threads ≡ THREADS }
{
    let held = AtomicU64::new(0);
    join(
        rt,
        || look_while_held(rt, table, &held),
        || grow_once_held(rt, table, &held),
    )
}

#[test]
fn a_growth_waits_for_a_held_bucket(rt: HostRuntime) {
    let table = made(&rt, rt.alloc());
    equal(&rt, ensured(&rt, &table, 2), Grown::Grew(3, 12));
    is_so(
        &rt,
        !table.was_left(&rt, 12),
        "the version of 12 buckets is in use",
    );
    let (seen, grown) = grow_while_held(&rt, &table);
    equal(&rt, seen, (true, true));
    equal(&rt, grown, Some(Grown::Grew(12, 30)));
    is_so(
        &rt,
        table.was_left(&rt, 12),
        "the version of 12 buckets was left",
    );
    end(&rt, rt.alloc(), table);
}
