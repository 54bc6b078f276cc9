ghost use Rattle.std.specs.Prelude.{◌≡◌, ◌<◌, ◌%◌, ◌↔◌, true, IsTrue};
ghost use Rattle.lot_bucket.specs.Contents.{hollow};
ghost use Rattle.lot_bucket.specs.Settled.{IsSettled, IsWhole, IsReadyFor, HasPlaceFor, Stays};

use crate::bucket::Bucket;
use crate::root::Root;
use std::alloc::Global;
use std::marker::Model;
use std::mem;

/// What lies behind the lock of a bucket: the bucket, and which one it is of its table.
///
/// Whenever the lock is free, an open bucket has the roots of exactly its keys, each root's line is what
/// the queue has of its key, and no root owes a letter; a closed bucket is empty. `lend` gives the bucket
/// out for as long as the lock is held. It is no more `Drop` than the bucket: `into_bucket` takes that out.
pub struct Settled<R: Root> {
    bucket: Bucket<R>,
    number: usize,
    size: usize,
    keys: usize,
}

impl<R: Root> Model for Settled<R> {
    ghost use Rattle.lot_bucket.specs.Settled.{Lying, IsSettled};

    ghost Value = { Lying R };

    ghost view = { λ s. record { bucket = s.bucket; number = s.number; size = s.size; keys = s.keys } };

    ghost invariant = { λ s. IsSettled R.view
        (record { bucket = s.bucket; number = s.number; size = s.size; keys = s.keys }) };
}

impl<R: Root> Settled<R> {
    /// The open bucket `number` of a table of `size` buckets for so many keys.
    pub fn new(bucket: Bucket<R>, number: usize, size: usize, keys: usize) -> Settled<R>
        requires { IsWhole R.view size number keys bucket }
        ensures { result ≡ record { bucket = bucket; number = number; size = size; keys = keys } }
    {
        Settled {
            bucket,
            number,
            size,
            keys,
        }
    }

    /// A closed bucket with no keys, which stands for bucket `which` of a table of `size` buckets that is not in use
    /// yet. It takes no memory.
    pub fn hollow(alloc: Global, which: usize, size: usize) -> Settled<R>
        ensures { result ≡ record { bucket = hollow; number = which; size = size; keys = 0 } }
    {
        Settled {
            bucket: Bucket::hollow(alloc),
            number: which,
            size,
            keys: 0,
        }
    }

    /// The bucket, to look at.
    pub fn bucket(&self) -> &Bucket<R>
        ensures { result.now ≡ self.now.bucket }
    {
        &self.bucket
    }

    /// Whether it is the open bucket of the key, in a table of `size` buckets for so many keys, with room for just all
    /// threads.
    pub fn is_ready(&self, key: usize, size: usize, threads: usize, keys: usize) -> bool
        ensures ready { IsTrue result → IsReadyFor R.view key threads keys self.now.bucket }
        ensures exact { IsTrue result ↔ (self.now.bucket.opened ≡ true) × (0 < size) × (self.now.size ≡ size)
            × (self.now.number ≡ key % size) × (self.now.keys ≡ keys) × (key < keys)
            × (self.now.bucket.room ≡ threads) }
    {
        self.bucket.is_open()
            && size > 0
            && self.size == size
            && self.number == key % size
            && self.keys == keys
            && key < keys
            && self.bucket.room() == threads
    }

    /// Whether it is the open bucket `number` of a table of `size` buckets for so many keys.
    pub fn is_whole(&self, number: usize, size: usize, keys: usize) -> bool
        ensures whole { IsTrue result → IsWhole R.view size number keys self.now.bucket }
        ensures exact { IsTrue result ↔ (self.now.bucket.opened ≡ true) × (self.now.number ≡ number)
            × (self.now.size ≡ size) × (self.now.keys ≡ keys) }
    {
        self.bucket.is_open() && self.number == number && self.size == size && self.keys == keys
    }

    /// Whether the thread does not wait here, and there is room for it. The queue is walked along only for a thread whose
    /// number is not below the room, or which has been queued 255 times at once.
    pub fn has_place_for(&self, thread: usize) -> bool
        ensures { IsTrue result ↔ HasPlaceFor thread self.now.bucket }
    {
        !self.bucket.has_thread(thread) && self.bucket.len() < self.bucket.room()
    }

    /// Calls `f` with the bucket, which is open, and answers what it answered.
    pub fn lend<X, Y, F: FnOnce(&mut Bucket<R>, X) -> Y>(&mut self, x: X, f: F) -> Y
        requires is_open { self.old.bucket.opened ≡ true }
        requires callable { (b : _) → b.now ≡ self.old.bucket → F.pre f b x }
        requires keeps { (b : _) (r : _) (b' : _) → b.now ≡ self.old.bucket → F.post f b x r b'
            → Stays R.view b.now b'.now }
        ensures { (b : _) × (b' : _) × (b.now ≡ self.old.bucket) × (self.new ≡ record self.old { bucket = b'.now })
            × F.post f b x result b' }
    {
        f(&mut self.bucket, x)
    }

    /// Takes the bucket out, and leaves a closed one with no keys, which stands for the same bucket of the same table.
    /// It takes no memory.
    pub fn take_bucket(&mut self, alloc: Global) -> Bucket<R>
        ensures taken { result ≡ self.old.bucket }
        ensures settled { IsSettled R.view self.old }
        ensures left { self.new ≡ record self.old { bucket = hollow } }
    {
        mem::replace(&mut self.bucket, Bucket::hollow(alloc))
    }

    /// The bucket itself, once no lock is needed round it.
    pub fn into_bucket(self) -> Bucket<R>
        ensures same { result ≡ self.bucket }
        ensures settled { IsSettled R.view self }
    {
        let Settled {
            bucket,
            number: _,
            size: _,
            keys: _,
        } = self;
        bucket
    }
}
