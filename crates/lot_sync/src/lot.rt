//! A lot: locks that guard values, and the passes of its threads.
ghost use Rattle.std.specs.Prelude.{◌≡◌, ◌+◌, ◌<◌, ◌↔◌, IsTrue, length};
ghost use Rattle.lot_sync.specs.Lot.{IsLot, HasShape, IsCond, IsSem};
ghost use Rattle.lot_sync.specs.Passes.{pass_view_of, IsAtRest, AreTallied};

use crate::pass::Pass;
use crate::pool::Pool;
use lot_locks::{is_held, is_parked};
use lot_park::ParkingLot;
use lot_scheme::{LotName, LotScheme, NamedPass, Silent, Tally};
use lot_waits::Tallies;
use lot_words::Keeps;
use std::marker::Model;
use std::sync::{Mutex, Wait};

/// Locks that guard values, for a number of threads. C says what is counted with each key: nothing, or its
/// [`Contention`](lot_scheme::Contention).
pub struct Lot<V: Keeps + Send, N: LotName<V> + Send, C: Tally + Send = Silent> {
    pub(crate) parking: ParkingLot<LotScheme<V, N, C>>,
    pub(crate) pool: Mutex<Pool<V, N, C>>,
    pub(crate) threads: usize,
    pub(crate) locks: usize,
    pub(crate) conds: usize,
    pub(crate) sems: usize,
}

impl<V: Keeps + Send, N: LotName<V> + Send, C: Tally + Send> Model for Lot<V, N, C> {
    ghost use Rattle.lot_sync.specs.Lot.{LotView, IsLot};

    ghost Value = { LotView };

    ghost view = { λ s. record { threads = s.threads; locks = s.locks; conds = s.conds; sems = s.sems } };

    ghost invariant = { λ s.
        IsLot
        (record {
          opening = N.opening;
          first_sem = N.first_sem;
          permits = N.permits;
          locks = N.locks;
          conds = N.conds;
          threads = N.threads;
          values = N.values;
        }) s.threads s.locks s.conds s.sems s.parking };
}

impl<V: Keeps + Send, N: LotName<V> + Send, C: Tally + Send> Lot<V, N, C> {
    /// A lot of this table, with all passes in the pool.
    pub(crate) fn of(
        parking: ParkingLot<LotScheme<V, N, C>>,
        pool: Pool<V, N, C>,
        threads: usize,
        locks: usize,
        conds: usize,
        sems: usize,
    ) -> Lot<V, N, C>
        requires lot { IsLot N.LotName threads locks conds sems parking }
        ensures { result ≡ record { threads = threads; locks = locks; conds = conds; sems = sems } }
    {
        Lot {
            parking,
            pool: Mutex::new(pool),
            threads,
            locks,
            conds,
            sems,
        }
    }

    /// The words and the lines, with what their name tells of the lot.
    #[inline(always)]
    pub(crate) fn parking(&self) -> &ParkingLot<LotScheme<V, N, C>>
        ensures threads { (self.now.threads ≡ N.threads) × (result.now.threads ≡ N.threads) }
        ensures keys { (self.now.locks ≡ N.locks) × (self.now.conds ≡ N.conds) × (self.now.sems ≡ length N.permits)
            × (N.first_sem ≡ N.locks + N.conds) × (N.locks ≡ length N.values) }
        ensures all { result.now.keys ≡ self.now.locks + self.now.conds + self.now.sems }
    {
        &self.parking
    }

    /// What a call hands back to the thread: its pass, put together anew.
    #[inline(always)]
    pub(crate) fn at_rest(&self, right: NamedPass<V, N>, tallies: Box<Tallies>) -> Pass<V, N>
        requires rest { IsAtRest V.grows N.LotName right }
        requires kept { AreTallied N.locks N.conds right tallies.value }
        ensures pass { result ≡ pass_view_of right }
        ensures shape { HasShape self.now result }
    {
        let _parking = self.parking();
        Pass::at_rest(right, tallies)
    }

    /// How many threads can have a pass at a time.
    pub fn threads(&self) -> usize
        ensures { result ≡ self.now.threads }
    {
        self.threads
    }

    /// How many locks there are.
    pub fn locks(&self) -> usize
        ensures { result ≡ self.now.locks }
    {
        self.locks
    }

    /// How many conditions there are. Their numbers follow the locks'.
    pub fn conds(&self) -> usize
        ensures { result ≡ self.now.conds }
    {
        self.conds
    }

    /// How many semaphores there are. Their numbers follow the conditions'.
    pub fn sems(&self) -> usize
        ensures { result ≡ self.now.sems }
    {
        self.sems
    }

    /// Whether this is the number of a lock.
    #[inline(always)]
    pub(crate) fn has_lock(&self, key: usize) -> bool
        ensures { IsTrue result ↔ (key < self.now.locks) }
    {
        key < self.locks
    }

    /// Whether this is the number of a condition.
    #[inline(always)]
    pub(crate) fn has_cond(&self, key: usize) -> bool
        ensures { IsTrue result ↔ IsCond self.now key }
    {
        key >= self.locks && key - self.locks < self.conds
    }

    /// Whether this is the number of a semaphore.
    #[inline(always)]
    pub(crate) fn has_sem(&self, key: usize) -> bool
        ensures { IsTrue result ↔ IsSem self.now key }
    {
        key >= self.locks
            && key - self.locks >= self.conds
            && key - self.locks - self.conds < self.sems
    }

    /// Whether somebody owns the lock at some moment of this call. It is an observation: nothing is promised of it.
    pub fn is_held(&self, key: usize) -> bool
        requires { key < self.now.locks }
    {
        prove!(self.has_lock(key));
        is_held(self.parking().scheme(), key)
    }

    /// Whether the lock is marked as parked at some moment of this call: somebody may wait in its line, and who lets it
    /// go looks there. It is an observation: nothing is promised of it.
    pub fn is_parked(&self, key: usize) -> bool
        requires { key < self.now.locks }
    {
        prove!(self.has_lock(key));
        is_parked(self.parking().scheme(), key)
    }

    /// How many threads wait in the line of the lock, the condition or the semaphore at some moment of this call.
    pub fn line_length<R: Wait>(&self, rt: &R, key: usize) -> usize
        requires { key < self.now.locks + self.now.conds + self.now.sems }
    {
        prove!(self.has_lock(key) || self.has_cond(key) || self.has_sem(key));
        self.parking().line_length(rt, key)
    }

    /// How many buckets the table has at some moment of this call. It grows with the number of passes that are out, but
    /// never where the lot has more than [`MAX_KEYS`](lot_core::MAX_KEYS) keys.
    pub fn table_size<R: Wait>(&self, rt: &R) -> usize
        ensures { 0 < result }
    {
        self.parking.size(rt)
    }
}
