ghost use Rattle.std.specs.Prelude.{◌≡◌, ℕ, ◌<◌, ◌≤◌, ◌↔◌, [], ◌∷◌, ◌++◌, length, take, drop, min, Any, IsTrue, IsSome, IfOk};
ghost use Rattle.std.specs.Prelude.{IfSome};
ghost use Rattle.lot_places.specs.Queue.{line_of, without_first, without_count, without_key, first_of};
ghost use Rattle.lot_places.specs.Waiting.{Waiting, lying_at};
ghost use Rattle.lot_places.specs.Counted.{AreCounted, threads_of};

use crate::counts::Counts;
use crate::links::Links;
use std::alloc::{AllocError, Global};
use std::marker::Model;

/// Threads that wait on keys, first come first, with room for so many.
///
/// Each lies at a place that it keeps until it is taken.
#[derive(Drop)]
pub struct Queue {
    // Who lies at each place, and on which key it waits; at a free place, who lay there last.
    pairs: Vec<(usize, usize)>,
    links: Links,
    // How often each thread waits: so whether one does is found without a walk.
    counts: Counts,
}

impl Model for Queue {
    ghost Value = { Waiting };

    ghost view = { λ q. record { room = q.links.room; pairs = lying_at q.pairs.items q.links.used } };

    ghost invariant = { λ q. (length q.pairs.items ≡ q.links.room)
        × AreCounted q.counts (threads_of (lying_at q.pairs.items q.links.used)) };
}

impl Queue {
    /// A queue in which nobody waits, with room for so many threads. No later call takes memory.
    pub fn new(alloc: Global, room: usize) -> Result<Queue, AllocError>
        ensures { IfOk result (λ q. q ≡ record { room = room; pairs = [] }) }
    {
        let pairs = vec![in alloc; (0, 0); room]?;
        let links = Links::new(alloc, room)?;
        let counts = Counts::new(alloc, room)?;
        Ok(Queue {
            pairs,
            links,
            counts,
        })
    }

    /// A queue without room. It takes no memory.
    pub fn hollow(alloc: Global) -> Queue
        ensures { result ≡ record { room = 0; pairs = [] } }
    {
        Queue {
            pairs: Vec::new(alloc),
            links: Links::hollow(alloc),
            counts: Counts::hollow(alloc),
        }
    }

    /// How many threads can wait here at a time.
    pub fn room(&self) -> usize
        ensures { result ≡ self.now.room }
    {
        self.links.room()
    }

    /// How many threads wait, on whatever key.
    pub fn len(&self) -> usize
        ensures count { result ≡ length self.now.pairs }
        ensures fits { result ≤ self.now.room }
    {
        self.links.len()
    }

    /// Whether the thread waits, on whatever key. It walks along the queue only for a thread whose number is not below
    /// the room, or which has been queued 255 times at once.
    pub fn has_thread(&self, thread: usize) -> bool
        ensures { IsTrue result ↔ Any (λ (p : ℕ × ℕ). p.0 ≡ thread) self.now.pairs }
    {
        match self.counts.has(thread) {
            Some(has) => has,
            None => self.place_of(thread).is_some(),
        }
    }

    /// The place where the thread lies, which it keeps until it is taken. It walks along the places in use.
    pub fn place_of(&self, thread: usize) -> Option<usize>
        ensures waits { IsSome result ↔ Any (λ (p : ℕ × ℕ). p.0 ≡ thread) self.now.pairs }
        ensures within { IfSome result (λ place. place < self.now.room) }
    {
        let mut cursor = self.links.start();
        while cursor.passed < self.links.len() {
            let place = self.links.place(cursor);
            if self.pairs[place].0 == thread {
                return Some(place);
            }
            cursor = self.links.past(cursor);
        }
        None
    }

    /// How many threads wait on the key.
    pub fn line_length(&self, key: usize) -> usize
        ensures { result ≡ length (line_of key self.now.pairs) }
    {
        let mut cursor = self.links.start();
        let mut count = 0;
        while cursor.passed < self.links.len() {
            if self.pairs[self.links.place(cursor)].1 == key {
                count += 1;
            }
            cursor = self.links.past(cursor);
        }
        count
    }

    /// Queues the thread last.
    pub fn push(&mut self, thread: usize, key: usize)
        requires { length self.old.pairs < self.old.room }
        ensures { self.new ≡ record self.old { pairs = self.old.pairs ++ (thread, key) ∷ [] } }
    {
        let place = self.links.append();
        self.pairs[place] = (thread, key);
        self.counts.count_in(thread);
    }

    /// Takes the first thread of the key's line, if there is one.
    pub fn take_first(&mut self, key: usize) -> Option<usize>
        ensures thread { result ≡ first_of (line_of key self.old.pairs) }
        ensures left { self.new ≡ record self.old { pairs = without_first key self.old.pairs } }
    {
        let mut out = [0];
        let taken = self.take_count(key, 1, &mut out);
        (taken == 1).then_some(out[0])
    }

    /// Takes the whole line of the key, writes it to the front of `out`, and answers how long it was. The rest of `out`
    /// stays.
    pub fn take_all(&mut self, key: usize, out: &mut [usize]) -> usize
        requires { length (line_of key self.old.pairs) ≤ length out.old }
        ensures count { result ≡ length (line_of key self.old.pairs) }
        ensures line { take result out.new ≡ line_of key self.old.pairs }
        ensures beyond { drop result out.new ≡ drop result out.old }
        ensures left { self.new ≡ record self.old { pairs = without_key key self.old.pairs } }
    {
        let all = self.len();
        self.take_count(key, all, out)
    }

    /// Takes the first `count` of the key's line, or all where it is shorter, writes them to the front of
    /// `out`, and answers how many they were. The rest of `out` stays. It walks no further than to the last of them.
    pub fn take_count(&mut self, key: usize, count: usize, out: &mut [usize]) -> usize
        requires { min count (length (line_of key self.old.pairs)) ≤ length out.old }
        ensures taken { result ≡ min count (length (line_of key self.old.pairs)) }
        ensures line { take result out.new ≡ take count (line_of key self.old.pairs) }
        ensures beyond { drop result out.new ≡ drop result out.old }
        ensures left { self.new ≡ record self.old { pairs = without_count count key self.old.pairs } }
    {
        let mut cursor = self.links.start();
        let mut taken = 0;
        while taken < count && cursor.passed < self.links.len() {
            let (thread, waits_on) = self.pairs[self.links.place(cursor)];
            if waits_on == key {
                out[taken] = thread;
                taken += 1;
                self.links.remove(cursor);
                self.counts.count_out(thread);
            } else {
                cursor = self.links.past(cursor);
            }
        }
        taken
    }
}
