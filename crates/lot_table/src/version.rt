//! One version of a table.

ghost use Rattle.std.specs.Prelude.{◌≡◌, ◌<◌, ◌≤◌, [], IfOk, length, vec_len, vec_capacity};
ghost use Rattle.lot_bucket.specs.Settled.{IsWhole};
ghost use Rattle.lot_table.specs.Buckets.{AreWhole, AreFilled};

use crate::denied::{Denied, room_for};
use crate::moves::MovedRows;
use crate::slot::Slot;
use lot_bucket::{Bucket, Root, Settled};
use std::alloc::Global;
use std::marker::Model;
use std::sync::Wait;

/// That the buckets to which all lines and roots were moved lie behind the locks of a version. Only `fill` gives one.
#[derive(Drop)]
pub struct Filled<R: Root> {
    rows: MovedRows<R>,
}

impl<R: Root> Model for Filled<R> {
    ghost use Rattle.lot_table.specs.Buckets.{Rows};

    ghost Value = { Rows R };

    ghost view = { λ f. f.rows };
}

/// The buckets of one version, each behind the lock of its number.
///
/// It is not `Drop`, as its buckets are not: `into_buckets` takes them out, and `discard` spends a version
/// that was left. The row of locks is private, since a row hands out its allocator.
pub struct Version<R: Root> {
    slots: Vec<Slot<R>>,
}

impl<R: Root> Model for Version<R> {
    ghost use Rattle.std.specs.Prelude.{◌<◌, vec_len};
    ghost use Rattle.lot_table.specs.Tables.{Extent, AreNumbered};

    ghost Value = { Extent };

    ghost view = { λ v. record { size = vec_len v.slots } };

    ghost invariant = { λ v. (0 < vec_len v.slots) × AreNumbered v.slots.items };
}

impl<R: Root> Version<R> {
    /// A version of so many buckets, all of which are closed and have no keys.
    pub fn hollow(alloc: Global, size: usize) -> Result<Version<R>, Denied>
        requires { 0 < size }
        ensures { IfOk result (λ v. v.size ≡ size) }
    {
        let mut slots = room_for(alloc, size)?;
        for number in 0..size {
            slots.push_reserved(Slot::new(Settled::hollow(alloc, number, size), number, size));
        }
        Ok(Version { slots })
    }

    /// The version of these buckets, which are opened, and the list that they lay in, with its room. `locks` has
    /// room for them.
    pub fn of(
        buckets: Vec<Bucket<R>>,
        keys: usize,
        locks: Vec<Slot<R>>,
    ) -> (Version<R>, Vec<Bucket<R>>)
        requires some { 0 < vec_len buckets }
        requires empty { vec_len locks ≡ 0 }
        requires room { vec_len buckets ≤ vec_capacity locks }
        requires filled { AreFilled R.view keys buckets.items }
        ensures size { result.0.size ≡ vec_len buckets }
        ensures empty { result.1.items ≡ [] }
        ensures room { vec_capacity result.1 ≡ vec_capacity buckets }
    {
        let size = buckets.len();
        let mut filled = buckets;
        let mut locks = locks;
        while let Some(mut bucket) = filled.pop() {
            let number = filled.len();
            bucket.open();
            locks.push_reserved(Slot::new(Settled::new(bucket, number, size, keys), number, size));
        }
        locks.reverse();
        (Version { slots: locks }, filled)
    }

    /// How many buckets it has.
    pub fn size(&self) -> usize
        ensures count { result ≡ self.now.size }
        ensures some { 0 < result }
    {
        self.slots.len()
    }

    /// The lock of that bucket.
    pub fn lock_of(&self, number: usize) -> &Slot<R>
        requires { number < self.now.size }
        ensures { result.now ≡ record { number = number; size = self.now.size } }
    {
        &self.slots[number]
    }

    /// Whether the bucket is locked at some moment of this call.
    pub fn is_locked(&self, number: usize) -> bool
        requires { number < self.now.size }
    {
        self.lock_of(number).is_locked()
    }

    /// Whether each bucket is found closed and empty.
    pub fn is_left<W: Wait>(&self, rt: &W) -> bool {
        for number in 0..self.size() {
            let guard = self.lock_of(number).lock(rt);
            let bucket = guard.bucket();
            if bucket.is_open() || !bucket.is_empty() {
                return false;
            }
        }
        true
    }

    /// Opens the new buckets, those to which all was moved, and puts each behind its lock, where a closed bucket lies
    /// that is spent.
    pub fn fill<W: Wait>(
        &self,
        rt: &W,
        fresh: Vec<Bucket<R>>,
        keys: usize,
        rows: MovedRows<R>,
    ) -> Filled<R>
        requires count { self.now.size ≡ vec_len fresh }
        requires filled { AreFilled R.view keys fresh.items }
        requires moved { rows.after ≡ fresh.items }
        ensures rows { result ≡ rows }
        ensures count { length result.after ≡ self.now.size }
    {
        let size = fresh.len();
        let mut fresh = fresh;
        while let Some(mut bucket) = fresh.pop() {
            let number = fresh.len();
            bucket.open();
            let settled = Settled::new(bucket, number, size, keys);
            spend(rt, self.lock_of(number).put(rt, settled));
        }
        fresh.destroy_empty();
        Filled { rows }
    }

    /// Takes all buckets out from under their locks, into `row`. That they are open is known by nothing but
    /// looking; nobody else has the version, so they are.
    pub fn into_buckets<W: Wait>(self, rt: &W, keys: usize, row: Vec<Bucket<R>>) -> Vec<Bucket<R>>
        requires { row.items ≡ [] }
        ensures some { 0 < vec_len result }
        ensures whole { AreWhole R.view keys result.items }
    {
        let Version { slots: mut locks } = self;
        let size = locks.len();
        let mut row = row;
        if size > row.capacity() {
            wait_without_end(rt);
        }
        locks.reverse();
        while let Some(lock) = locks.pop() {
            let number = row.len();
            row.push_reserved(taken_whole(rt, lock.into_inner(), number, size, keys));
        }
        locks.destroy_empty();
        row
    }

    /// Spends a version whose buckets are all closed. That they are is known by nothing but looking.
    pub fn discard<W: Wait>(self, rt: &W) {
        let Version { mut slots } = self;
        while let Some(slot) = slots.pop() {
            spend(rt, slot.into_inner());
        }
        slots.destroy_empty();
    }
}

fn taken_whole<W: Wait, R: Root>(
    rt: &W,
    settled: Settled<R>,
    number: usize,
    size: usize,
    keys: usize,
) -> Bucket<R>
    ensures { IsWhole R.view size number keys result }
{
    if !settled.is_whole(number, size, keys) {
        wait_without_end(rt);
    }
    settled.into_bucket()
}

// Spends what lay behind a lock, a closed bucket. An open one is kept, and then the call does not return.
fn spend<W: Wait, R: Root>(rt: &W, settled: Settled<R>) {
    if settled.bucket().is_open() {
        wait_without_end(rt);
    }
    settled.into_bucket().discard();
}

fn wait_without_end<W: Wait>(rt: &W)
    ensures { ⊥ }
{
    for _ in rt.forever() {}
    unreachable!()
}
