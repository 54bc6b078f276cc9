//! One bucket of a version, behind its lock.

ghost use Rattle.std.specs.Prelude.{◌≡◌, ◌%◌, IfSome};
ghost use Rattle.std.specs.Sync.Mutex.{mutex_guard_value};
ghost use Rattle.lot_bucket.specs.Settled.{IsReadyFor};

use lot_bucket::{Root, Settled};
use std::marker::Model;
use std::mem;
use std::sync::{Mutex, MutexGuard, Wait};

/// A bucket behind its lock, which knows which bucket that is of how many.
pub struct Slot<R: Root> {
    lock: Mutex<Settled<R>>,
    number: usize,
    size: usize,
}

impl<R: Root> Model for Slot<R> {
    ghost use Rattle.lot_table.specs.Tables.{Spot};

    ghost Value = { Spot };

    ghost view = { λ s. record { number = s.number; size = s.size } };
}

impl<R: Root> Slot<R> {
    /// The lock of bucket `number` of a version of `size` buckets, and what lies behind it.
    pub fn new(settled: Settled<R>, number: usize, size: usize) -> Slot<R>
        requires number { settled.number ≡ number }
        requires size { settled.size ≡ size }
        ensures { result ≡ record { number = number; size = size } }
    {
        Slot {
            lock: Mutex::new(settled),
            number,
            size,
        }
    }

    /// Locks the bucket, whichever state it is in.
    pub fn lock<W: Wait>(&self, rt: &W) -> MutexGuard<'_, Settled<R>> {
        self.lock.lock(rt)
    }

    /// Locks the bucket of the key, and gives it where it is open, with room for just all threads. One that was left is
    /// let go.
    pub fn lock_ready<W: Wait>(
        &self,
        rt: &W,
        key: usize,
        size: usize,
        threads: usize,
        keys: usize,
    ) -> Option<MutexGuard<'_, Settled<R>>>
        requires size { self.now.size ≡ size }
        requires number { self.now.number ≡ key % size }
        ensures ready { IfSome result (λ g. IsReadyFor R.view key threads keys (mutex_guard_value g).bucket) }
        ensures number { IfSome result (λ g. (mutex_guard_value g).number ≡ self.now.number) }
        ensures size { IfSome result (λ g. (mutex_guard_value g).size ≡ self.now.size) }
    {
        let guard = self.lock.lock(rt);
        if guard.is_ready(key, size, threads, keys) {
            Some(guard)
        } else {
            drop(guard);
            None
        }
    }

    /// Whether the bucket is locked at some moment of this call.
    pub fn is_locked(&self) -> bool {
        self.lock.try_lock().is_none()
    }

    /// Puts the bucket behind its own lock, and answers what lay there.
    pub fn put<W: Wait>(&self, rt: &W, settled: Settled<R>) -> Settled<R>
        requires number { settled.number ≡ self.now.number }
        requires size { settled.size ≡ self.now.size }
    {
        mem::replace(&mut *self.lock.lock(rt), settled)
    }

    /// What lies behind the lock, once nobody else has it.
    pub fn into_inner(self) -> Settled<R> {
        let Slot {
            lock,
            number: _,
            size: _,
        } = self;
        lock.into_inner()
    }
}
