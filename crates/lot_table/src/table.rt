ghost use Rattle.std.specs.Prelude.{◌≡◌, ℕ, ◌+◌, ◌*◌, ◌<◌, ◌≤◌, ◌%◌, length, vec_len, vec_capacity};
ghost use Rattle.std.specs.Prelude.{IfOk, IfErr};
ghost use Rattle.std.specs.Sync.Mutex.{mutex_guard_value};
ghost use Rattle.lot_bucket.specs.Settled.{IsReadyFor, HasPlaceFor, Stays};
ghost use Rattle.lot_table.specs.Roots.{AreIdle, Appends};
ghost use Rattle.lot_table.specs.Sizes.{Serves, grown_size_of, first_size_of};
ghost use Rattle.lot_table.specs.Buckets.{AreFresh, AreFilled, AreElseAs, AreRooted};
ghost use Rattle.lot_table.specs.declared.sizes.TheConstants.{MOST_THREADS, MOST_VERSIONS};

use crate::closing::Closing;
use crate::ensuring::ensure_with;
use crate::fresh::fresh_buckets;
use crate::growing::Growth;
use crate::growth::Grower;
use crate::served::Served;
use crate::sizes::{MOST_THREADS, MOST_VERSIONS, TableFault, first_size, grown_size};
use crate::slot::Slot;
use crate::version::Version;
use crate::versions::Versions;
use lot_bucket::{Bucket, Root, Settled};
use std::alloc::Global;
use std::marker::Model;
use std::sync::{Mutex, MutexGuard, OnceLock, Wait};
use std::thread;

/// That the bucket which a call had locked was unlocked. Only such a call gives one, so what takes one can't be done in
/// the work under that lock; nothing tells that its holder locked no bucket since. It takes no bytes.
#[derive(Drop)]
pub struct Unlocked(());

/// The buckets of a parking lot by key, as the hash table of WTF's ParkingLot: key `k` lies in bucket
/// `k mod size` of the newest version.
///
/// Make it by `new` with a root for each key, take a key's bucket by `with_bucket`, and end it by `close`,
/// which gives the roots back. `ensure` lets it grow while others use it.
///
/// It is not `Drop`, and neither are its buckets and roots: each is somewhere until `close`.
pub struct Table<R: Root> {
    versions: Versions<R>,
    // Behind a lock, though `close` alone uses it: so threads may share a table whose roots they may not share.
    closing: Mutex<Closing<R>>,
    grower: Grower,
    threads: usize,
    keys: usize,
}

impl<R: Root> Model for Table<R> {
    ghost use Rattle.std.specs.Prelude.{◌≡◌, ◌≤◌};
    ghost use Rattle.lot_table.specs.Tables.{Bounds};
    ghost use Rattle.lot_table.specs.declared.sizes.TheConstants.{MOST_THREADS};

    ghost Value = { Bounds };

    ghost view = { λ t. record { threads = t.threads; keys = t.keys } };

    ghost invariant = { λ t. t.threads ≤ MOST_THREADS };
}

impl<R: Root> Table<R> {
    /// A table for so many threads, with a key for each root: root `i` is that of key `i`. It has three
    /// buckets at first; with more than 1024 keys it has all that it will ever need, and never grows.
    ///
    /// The list of the roots comes back: empty and with all its room, which is enough for `close`, or with the
    /// roots where a request for memory was refused.
    pub fn new(
        alloc: Global,
        threads: usize,
        roots: Vec<R>,
    ) -> Result<(Table<R>, Vec<R>), (TableFault, Vec<R>)>
        requires few { threads ≤ MOST_THREADS }
        requires idle { AreIdle R.view roots.items }
        ensures ok { IfOk result (λ r. r.0 ≡ record { threads = threads; keys = vec_len roots }) }
        ensures room { IfOk result (λ r. (vec_len r.1 ≡ 0) × (vec_capacity r.1 ≡ vec_capacity roots)) }
        ensures err { IfErr result (λ e. e.1 ≡ roots) }
    {
        let keys = roots.len();
        let parts = match parts_for(alloc, threads, keys) {
            Ok(parts) => parts,
            Err(fault) => return Err((fault, roots)),
        };
        let Parts {
            locks,
            mut fresh,
            cells,
        } = parts;
        let mut roots = roots;
        put_all(fresh.as_mut_slice(), &mut roots);
        let (first, row) = Version::of(fresh, keys, locks);
        let table = Table {
            versions: Versions::new(first, cells),
            closing: Mutex::new(Closing::new(row)),
            grower: Grower::new(alloc),
            threads,
            keys,
        };
        Ok((table, roots))
    }

    /// How many buckets the newest version has; a moment later it may be more.
    pub fn size<W: Wait>(&self, _rt: &W) -> usize
        ensures { 0 < result }
    {
        self.versions.newest().version.size()
    }

    /// Whether the bucket of that number in the newest version is locked at some moment of this call. It is an
    /// observation: nothing is promised of it.
    pub fn is_locked(&self, number: usize) -> bool {
        let version = self.versions.newest().version;
        number < version.size() && version.is_locked(number)
    }

    /// Whether a version of so many buckets was left for a later one: each of its buckets is found closed and empty,
    /// one after the other. It is an observation: nothing is promised of it.
    pub fn was_left<W: Wait>(&self, rt: &W, size: usize) -> bool {
        match self.versions.of_size(size) {
            Some(version) => version.is_left(rt),
            None => false,
        }
    }

    /// Calls `f` once with the open bucket of the key, under its lock, and answers what it answered.
    ///
    /// What the lock leaves unknown is tested under it before. A closed bucket is let go, and the call begins
    /// again with the newest version. `f` must not call the table. A key that the table has not is waited for
    /// without end.
    pub fn with_bucket<W: Wait, X, Y, F: FnOnce(&mut Bucket<R>, X) -> Y>(
        &self,
        rt: &W,
        key: usize,
        x: X,
        f: F,
    ) -> Y
        requires callable { (b : _) → IsReadyFor R.view key self.now.threads self.now.keys b.now → F.pre f b x }
        requires keeps { (b : _) (r : _) (b' : _) → IsReadyFor R.view key self.now.threads self.now.keys b.now
            → F.post f b x r b' → Stays R.view b.now b'.now }
        ensures { (b : _) × (b' : _) × IsReadyFor R.view key self.now.threads self.now.keys b.now × F.post f b x result b'
            × Stays R.view b.now b'.now }
    {
        let mut guard = self.lock_ready(rt, key);
        let ready = &mut *guard;
        ready.lend(x, f)
    }

    /// As `with_bucket`, once the thread does not wait in the bucket and has a place there. Beside what `f` answered it
    /// answers that the bucket is unlocked.
    pub fn with_place_for<W: Wait, X, Y, F: FnOnce(&mut Bucket<R>, X) -> Y>(
        &self,
        rt: &W,
        key: usize,
        thread: usize,
        x: X,
        f: F,
    ) -> (Y, Unlocked)
        requires callable { (b : _) → IsReadyFor R.view key self.now.threads self.now.keys b.now
            → HasPlaceFor thread b.now → F.pre f b x }
        requires keeps { (b : _) (r : _) (b' : _) → IsReadyFor R.view key self.now.threads self.now.keys b.now
            → HasPlaceFor thread b.now → F.post f b x r b' → Stays R.view b.now b'.now }
        ensures { (b : _) × (b' : _) × IsReadyFor R.view key self.now.threads self.now.keys b.now
            × HasPlaceFor thread b.now × F.post f b x result.0 b' × Stays R.view b.now b'.now }
    {
        let mut guard = self.lock_with_place(rt, key, thread);
        let settled = &mut *guard;
        let answer = settled.lend(x, f);
        drop(guard);
        (answer, Unlocked(()))
    }

    fn lock_ready<W: Wait>(&self, rt: &W, key: usize) -> MutexGuard<'_, Settled<R>>
        ensures { IsReadyFor R.view key self.now.threads self.now.keys (mutex_guard_value result).bucket }
    {
        for _ in rt.forever() {
            let version = self.versions.newest().version;
            let size = version.size();
            let slot = version.lock_of(key % size);
            if let Some(guard) = slot.lock_ready(rt, key, size, self.threads, self.keys) {
                return guard;
            }
            thread::yield_now();
        }
        unreachable!()
    }

    fn lock_with_place<W: Wait>(
        &self,
        rt: &W,
        key: usize,
        thread: usize,
    ) -> MutexGuard<'_, Settled<R>>
        ensures ready { IsReadyFor R.view key self.now.threads self.now.keys (mutex_guard_value result).bucket }
        ensures place { HasPlaceFor thread (mutex_guard_value result).bucket }
    {
        for _ in rt.forever() {
            let guard = self.lock_ready(rt, key);
            if guard.has_place_for(thread) {
                return guard;
            }
            drop(guard);
            thread::yield_now();
        }
        unreachable!()
    }

    /// Lets the table grow until it has three buckets for each of so many threads, and answers what became of
    /// it: the newest version was large enough, and this call published none; or this call published one, once, and
    /// moved all lines to it. `Err` is for a request for memory that was refused, and then nothing has changed.
    ///
    /// Others may use the table meanwhile, and grow it. No bucket may be locked by the caller.
    pub fn ensure<W: Wait>(&self, rt: &W, threads: usize) -> Result<Served, TableFault>
        requires { threads ≤ self.now.threads }
        ensures { IfOk result (λ g. Serves threads g) }
    {
        prove!(self.threads <= MOST_THREADS);
        let growth = Growth::new(&self.versions, &self.grower, self.keys, self.threads);
        Ok(ensure_with(rt, &growth, threads, ())?)
    }

    /// Appends each key's root to `out`, in key order. It takes no memory.
    pub fn close<W: Wait>(self, rt: &W, out: &mut Vec<R>)
        requires { vec_len out.old + self.keys ≤ vec_capacity out.old }
        ensures { Appends R.view self.keys out.old.items out.new.items }
    {
        let Table {
            versions,
            closing,
            grower: _,
            threads: _,
            keys,
        } = self;
        let newest = versions.into_newest(rt);
        closing.into_inner().close(rt, newest, keys, out);
    }
}

// What a table is made of: room for the locks of the first version, its buckets in a list that has room for those
// of any version, and room for the cells of the versions after it.
struct Parts<R: Root> {
    locks: Vec<Slot<R>>,
    fresh: Vec<Bucket<R>>,
    cells: Vec<OnceLock<Version<R>>>,
}

fn parts_for<R: Root>(alloc: Global, threads: usize, keys: usize) -> Result<Parts<R>, TableFault>
    requires { threads ≤ MOST_THREADS }
    ensures some { 0 < first_size_of threads keys }
    ensures locks { IfOk result (λ p. (vec_len p.locks ≡ 0) × (first_size_of threads keys ≤ vec_capacity p.locks)) }
    ensures fresh { IfOk result (λ p. (vec_len p.fresh ≡ first_size_of threads keys)
        × AreFresh keys threads p.fresh.items) }
    ensures cells { IfOk result (λ p. (vec_len p.cells ≡ 0) × (MOST_VERSIONS ≤ vec_capacity p.cells + 1)) }
    ensures closing { IfOk result (λ p. first_size_of threads keys + grown_size_of 0 threads ≤ vec_capacity p.fresh) }
{
    let mut locks = Vec::new(alloc);
    let mut cells = Vec::new(alloc);
    let first = first_size(threads, keys);
    let most = first + grown_size(0, threads);
    let has_room = locks.reserve(first).is_ok() && cells.reserve(MOST_VERSIONS - 1).is_ok();
    let made = if has_room {
        fresh_buckets(alloc, most, first, keys, threads).ok()
    } else {
        None
    };
    match made {
        Some(fresh) => Ok(Parts {
            locks,
            fresh,
            cells,
        }),
        None => {
            locks.destroy_empty();
            cells.destroy_empty();
            Err(TableFault::NoMemory)
        }
    }
}

// Puts each root into the bucket of its key, and leaves the list empty.
fn put_all<R: Root>(fresh: &mut [Bucket<R>], roots: &mut Vec<R>)
    requires some { 0 < length fresh.old }
    requires fresh { (threads : ℕ) × AreFresh (length roots.old.items) threads fresh.old }
    requires idle { AreIdle R.view roots.old.items }
    ensures filled { AreFilled R.view (length roots.old.items) fresh.new }
    ensures room { (vec_len roots.new ≡ 0) × (vec_capacity roots.new ≡ vec_capacity roots.old) }
    ensures roots { AreRooted roots.old.items fresh.new }
    ensures as_before { AreElseAs fresh.old fresh.new }
{
    let size = fresh.len();
    while let Some(root) = roots.pop() {
        let key = roots.len();
        fresh[key % size].put_root(key, root);
    }
}
