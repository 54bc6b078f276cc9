ghost use Rattle.std.specs.Prelude.{◌≡◌, ℕ, ◌+◌, ◌-◌, ◌*◌, ◌^◌, ◌<◌, ◌≤◌, ◌↔◌, true, false, [], ◌∷◌, ◌++◌, length};
ghost use Rattle.std.specs.Prelude.{take, drop, min, Any, IfOk, IsTrue, IsSome};
ghost use Rattle.lot_bucket.specs.Queue.{line_of, without_key};
ghost use Rattle.lot_bucket.specs.Places.{empty_places, spaced, has_key, root_at, with_root};

use crate::taking::{Dequeued, Moment};
use lot_places::{Places, Queue};
use std::alloc::{AllocError, Global};
use std::marker::Model;
use thiserror::Error;

/// Why a bucket could not be made.
#[derive(Clone, Copy, Debug, PartialEq, Eq, Error)]
pub enum BucketFault {
    /// A request for memory was refused.
    #[error("no memory")]
    NoMemory = 1,
}

impl From<AllocError> for BucketFault {
    fn from(_error: AllocError) -> BucketFault {
        BucketFault::NoMemory
    }
}

// After a fair dequeue it is time to be fair again less than so many nanoseconds later.
const UNFAIR_SPAN: u64 = 1_000_000;

/// A queue of threads that wait on some keys, and the root of each of these keys.
///
/// It follows the buckets of WTF's parking lot; that it is time to be fair is decided by moments that
/// the caller hands in. A new bucket is closed. To change a key's line, take its root out, change queue
/// and root alike, and put the root back.
///
/// It is not `Drop`: whoever has a bucket keeps it, or empties and closes it and spends it by `discard`.
pub struct Bucket<R> {
    queue: Queue,
    places: Places<R>,
    opened: bool,
    next_fair: u64,
}

impl<R> Model for Bucket<R> {
    ghost use Rattle.lot_bucket.specs.Contents.{Contents};

    ghost Value = { Contents R };

    ghost view = { λ b. record {
      room = b.queue.room;
      places = b.places;
      queue = b.queue.pairs;
      opened = b.opened;
      next_fair = b.next_fair;
    } };
}

impl<R> Bucket<R> {
    ghost use Rattle.lot_bucket.specs.Taking.{TakesOne, TakesFirst};
    ghost use Rattle.lot_bucket.specs.Agrees.{IsSpent};
    ghost use Rattle.lot_bucket.specs.Contents.{hollow};

    /// A closed bucket with these keys, and room for so many threads. No later call takes memory.
    pub fn new(alloc: Global, room: usize, keys: &[usize]) -> Result<Bucket<R>, BucketFault>
        ensures { IfOk result (λ b. b ≡ record {
          room = room;
          places = empty_places keys.now;
          queue = [];
          opened = false;
          next_fair = 0;
        }) }
    {
        let queue = Queue::new(alloc, room)?;
        let places = Places::new(alloc, keys)?;
        Ok(Bucket::closed(queue, places))
    }

    /// A closed bucket with `count` keys, and room for so many threads: the keys are `first`, and then each is
    /// the one before and `step`. It makes no list of them; no later call takes memory.
    pub fn spaced(
        alloc: Global,
        room: usize,
        first: usize,
        step: usize,
        count: usize,
    ) -> Result<Bucket<R>, BucketFault>
        requires { first + (count - 1) * step < 2 ^ 64 }
        ensures { IfOk result
            (λ b. b ≡ record {
              room = room;
              places = empty_places (spaced first step count);
              queue = [];
              opened = false;
              next_fair = 0;
            }) }
    {
        let queue = Queue::new(alloc, room)?;
        let places = Places::spaced(alloc, first, step, count)?;
        Ok(Bucket::closed(queue, places))
    }

    /// A closed bucket with no keys and no room. It takes no memory.
    pub fn hollow(alloc: Global) -> Bucket<R>
        ensures { result ≡ hollow }
    {
        Bucket::closed(Queue::hollow(alloc), Places::hollow(alloc))
    }

    fn closed(queue: Queue, places: Places<R>) -> Bucket<R>
        ensures { result ≡ record {
          room = queue.room;
          places = places;
          queue = queue.pairs;
          opened = false;
          next_fair = 0;
        } }
    {
        Bucket {
            queue,
            places,
            opened: false,
            next_fair: 0,
        }
    }

    /// Whether it is in use: not still being filled, and not left for one of a larger table.
    pub fn is_open(&self) -> bool
        ensures { result ≡ self.now.opened }
    {
        self.opened
    }

    /// Takes it into use. Behind a lock, every key's root has to be in.
    pub fn open(&mut self)
        ensures { self.new ≡ record self.old { opened = true } }
    {
        self.opened = true;
    }

    /// Takes it out of use. Behind a lock, it has to be empty.
    pub fn close(&mut self)
        ensures { self.new ≡ record self.old { opened = false } }
    {
        self.opened = false;
    }

    /// The moment after which it is time to be fair, in nanoseconds.
    pub fn next_fair(&self) -> u64
        ensures { result ≡ self.now.next_fair }
    {
        self.next_fair
    }

    /// How many threads can wait here at a time.
    pub fn room(&self) -> usize
        ensures { result ≡ self.now.room }
    {
        self.queue.room()
    }

    /// How many threads wait, on whatever key.
    pub fn len(&self) -> usize
        ensures count { result ≡ length self.now.queue }
        ensures fits { result ≤ self.now.room }
    {
        self.queue.len()
    }

    /// How many threads wait on the key.
    pub fn line_length(&self, key: usize) -> usize
        ensures { result ≡ length (line_of key self.now.queue) }
    {
        self.queue.line_length(key)
    }

    /// Whether nobody waits here, on whatever key.
    pub fn is_empty(&self) -> bool
        ensures { IsTrue result ↔ (self.now.queue ≡ []) }
    {
        self.len() == 0
    }

    /// Whether the key is one of those that the bucket was made for.
    pub fn has_key(&self, key: usize) -> bool
        ensures { result ≡ has_key key self.now.places }
    {
        self.places.has(key)
    }

    /// Whether the thread waits here, on whatever key.
    pub fn has_thread(&self, thread: usize) -> bool
        ensures { IsTrue result ↔ Any (λ (p : ℕ × ℕ). p.0 ≡ thread) self.now.queue }
    {
        self.queue.has_thread(thread)
    }

    /// Queues the thread last.
    pub fn enqueue(&mut self, thread: usize, key: usize)
        requires { length self.old.queue < self.old.room }
        ensures { self.new ≡ record self.old { queue = self.old.queue ++ (thread, key) ∷ [] } }
    {
        self.queue.push(thread, key);
    }

    /// Takes the first thread of the key's line, and says whether it is time to be fair.
    pub fn dequeue_one(&mut self, key: usize, moment: Moment) -> Dequeued
        ensures { TakesOne key moment self.old self.new result }
    {
        let thread = self.queue.take_first(key);
        let next_fair = &mut self.next_fair;
        let fair = thread.is_some() && moment.now > *next_fair;
        if fair {
            *next_fair = moment.now.saturating_add(moment.word % UNFAIR_SPAN);
        }
        Dequeued {
            thread,
            more: thread.is_some() && self.queue.len() > 0,
            fair,
        }
    }

    /// Takes the first `count` threads of the key's line, or all where it is shorter, and writes them to the
    /// front of `out`, whose rest stays. It answers how many they were, and whether somebody was taken and the queue
    /// is not empty; who is left may wait on another key. The moment after which it is time to be fair stays.
    pub fn dequeue_count(&mut self, key: usize, count: usize, out: &mut [usize]) -> (usize, bool)
        requires { min count (length (line_of key self.old.queue)) ≤ length out.old }
        ensures took { TakesFirst count key self.old self.new (take result.0 out.new) result.0 result.1 }
        ensures beyond { drop result.0 out.new ≡ drop result.0 out.old }
    {
        let taken = self.queue.take_count(key, count, out);
        (taken, taken > 0 && self.queue.len() > 0)
    }

    /// Takes the whole line of the key, writes it to the front of `out`, and answers how long it was. The rest of `out`
    /// stays.
    pub fn dequeue_all(&mut self, key: usize, out: &mut [usize]) -> usize
        requires { length (line_of key self.old.queue) ≤ length out.old }
        ensures count { result ≡ length (line_of key self.old.queue) }
        ensures line { take result out.new ≡ line_of key self.old.queue }
        ensures beyond { drop result out.new ≡ drop result out.old }
        ensures left { self.new ≡ record self.old { queue = without_key key self.old.queue } }
    {
        self.queue.take_all(key, out)
    }

    /// Takes the key's root out of its place.
    pub fn take_root(&mut self, key: usize) -> R
        requires { IsSome (root_at key self.old.places) }
        ensures root { root_at key self.old.places ≡ Some result }
        ensures left { self.new ≡ record self.old { places = with_root key None self.old.places } }
    {
        self.places.take(key)
    }

    /// Puts the key's root into its place, which is empty.
    pub fn put_root(&mut self, key: usize, root: R)
        requires has { has_key key self.old.places ≡ true }
        requires room { root_at key self.old.places ≡ None }
        ensures { self.new ≡ record self.old { places = with_root key (Some root) self.old.places } }
    {
        self.places.put(key, root);
    }

    /// Spends a closed bucket in which neither a thread nor a root is left.
    pub fn discard(self)
        requires { IsSpent self }
    {
        let Bucket {
            queue: _,
            places,
            opened: _,
            next_fair: _,
        } = self;
        places.discard();
    }
}
