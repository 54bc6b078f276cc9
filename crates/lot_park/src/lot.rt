ghost use Rattle.std.specs.Prelude.{◌≡◌, ◌+◌, ◌<◌, ◌≤◌, true, [], length, vec_len, vec_capacity, IfOk, IfErr};

use crate::parking::{park_in, unpark_count_in, unpark_in};
use crate::scheme::{Scheme, Token};
use crate::taken::TakenThreads;
use crossbeam_utils::CachePadded;
use lot_bucket::{Bucket, Dequeued as UnparkResult, Moment};
use lot_records::Record;
use lot_table::{MOST_THREADS, Served, Table, TableFault, Unlocked};
use std::alloc::{AllocError, Global};
use std::marker::Model;
use std::sync::Wait;
use std::sync::atomic::{AtomicUsize, Ordering};
use thiserror::Error;

/// Why a parking lot could not be made.
#[derive(Clone, Copy, Debug, PartialEq, Eq, Error)]
pub enum ParkFault {
    /// A request for memory was refused.
    #[error("no memory")]
    NoMemory = 1,
}

/// How a parking ended.
#[derive(Clone, Copy, Debug, PartialEq, Eq)]
pub enum Parked {
    /// The validation said no, and nothing was done.
    Invalid,
    /// Somebody took the thread from the line and told it this.
    Woken(Token),
}

/// Lines of sleeping threads, one for each key, as WTF's ParkingLot with numbers for addresses.
///
/// A thread parks on a key where a validation under the lock of the key's bucket says so, and sleeps
/// until somebody unparks it; the callback of the unparking decides, under the same lock, what the
/// sleeper is told. End it by `close`, which gives the roots and the scheme back.
pub struct ParkingLot<S: Scheme> {
    scheme: S,
    table: Table<S::Root>,
    records: Vec<CachePadded<Record>>,
    // How many threads seek something now; those that sleep meanwhile are among them. Nothing is promised of it.
    seeking: CachePadded<AtomicUsize>,
}

impl<S: Scheme> Model for ParkingLot<S> {
    ghost use Rattle.std.specs.Prelude.{◌≡◌, ◌≤◌, vec_len};
    ghost use Rattle.lot_park.specs.Lots.{ParkingView};
    ghost use Rattle.lot_table.specs.declared.sizes.TheConstants.{MOST_THREADS};

    ghost Value = { ParkingView S };

    ghost view = { λ l. record { scheme = l.scheme; threads = l.table.threads; keys = l.table.keys } };

    ghost invariant = { λ l. (vec_len l.records ≡ l.table.threads) × (l.table.threads ≤ MOST_THREADS) };
}

impl<S: Scheme> ParkingLot<S> {
    ghost use Rattle.lot_park.specs.Lots.{ParkingView, AreIdle, Appends};
    ghost use Rattle.lot_table.specs.Sizes.{Serves};
    ghost use Rattle.lot_bucket.specs.Settled.{HasPlaceFor, IsReadyFor, Stays};
    ghost use Rattle.lot_park.specs.Parking.{IsOpenFor, MayUnpark, Unparks, UnparkedOne, MayUnparkAll, UnparksAll};
    ghost use Rattle.lot_park.specs.Parking.{UnparkedAll, MayUnparkCount, UnparksCount, UnparkedCount, MayValidate};
    ghost use Rattle.lot_park.specs.Parking.{Validates, Validated, Awaited, ParkedActing, ParkedOnce};

    /// A lot for so many threads, with a key for each root: root `i` is that of key `i`.
    ///
    /// The list of the roots comes back: empty and with all its room, which is enough for `close`, or with the
    /// roots, and the scheme beside it, where a request for memory was refused.
    pub fn open(
        alloc: Global,
        threads: usize,
        roots: Vec<S::Root>,
        scheme: S,
    ) -> Result<(ParkingLot<S>, Vec<S::Root>), (ParkFault, Vec<S::Root>, S)>
        requires few { threads ≤ MOST_THREADS }
        requires idle { AreIdle S.Root.view roots.items }
        ensures ok { IfOk result (λ r. r.0 ≡ record { scheme = scheme; threads = threads; keys = vec_len roots }) }
        ensures room { IfOk result (λ r. (vec_len r.1 ≡ 0) × (vec_capacity r.1 ≡ vec_capacity roots)) }
        ensures err { IfErr result (λ e. (e.1 ≡ roots) × (e.2 ≡ scheme)) }
    {
        let Ok(records) = new_records(alloc, threads) else {
            return Err((ParkFault::NoMemory, roots, scheme));
        };
        match Table::new(alloc, threads, roots) {
            Ok((table, room)) => Ok((
                ParkingLot {
                    scheme,
                    table,
                    records,
                    seeking: CachePadded::new(AtomicUsize::new(0)),
                },
                room,
            )),
            Err((TableFault::NoMemory, roots)) => Err((ParkFault::NoMemory, roots, scheme)),
        }
    }

    /// The scheme that the lot was opened with.
    pub fn scheme(&self) -> &S
        ensures { result.now ≡ self.now.scheme }
    {
        &self.scheme
    }

    /// Sleeps on the key, unless `validate` says no, and answers what it was told.
    ///
    /// `validate` is called once, under the lock of the key's bucket; where it says yes, the thread stands
    /// last in the line. Then `before_sleep` is called once with no bucket locked, and must not park; it
    /// may unpark, even this thread.
    pub fn park_conditionally<
        W: Wait,
        X,
        V: FnOnce(X, S::Pass, S::Root) -> (X, S::Pass, S::Root, bool),
        B: FnOnce(X) -> X,
    >(
        &self,
        rt: &W,
        pass: S::Pass,
        key: usize,
        x: X,
        validate: V,
        before_sleep: B,
    ) -> (S::Pass, X, Parked)
        requires key { key < self.now.keys }
        requires thread { S.thread pass < self.now.threads }
        requires callable { MayValidate S.Root.view key (V.pre validate x pass) }
        requires keeps { Validates S.Root.view S.thread key (S.thread pass) (V.post validate x pass) }
        requires sleeps { (r : S.Root) (o : _) → (S.Root.view r).key ≡ key → (S.Root.view r).owes ≡ []
            → V.post validate x pass r o → o.3 ≡ true → B.pre before_sleep o.0 }
        ensures { (b : _) × IsReadyFor S.Root.view key self.now.threads self.now.keys b × HasPlaceFor (S.thread pass) b
            × ParkedOnce S.Root.view key b (V.post validate x pass) (B.post before_sleep) S.looked result }
    {
        let act = |x: X, pass: S::Pass, _unlocked: Unlocked| -> (X, S::Pass)
            requires { B.pre before_sleep x }
            ensures acts { B.post before_sleep x result.0 }
            ensures same { result.1 ≡ pass }
        { (before_sleep(x), pass) };
        self.park_acting(rt, pass, key, x, validate, act)
    }

    /// `park_conditionally` with an action that has the pass: what the thread does with it when it is queued, before it
    /// sleeps, as letting a lock go where it waits on a condition. The pass stays that thread's. The action takes an
    /// `Unlocked`, which is to be had only after the bucket was unlocked.
    pub fn park_acting<
        W: Wait,
        X,
        V: FnOnce(X, S::Pass, S::Root) -> (X, S::Pass, S::Root, bool),
        A: FnOnce(X, S::Pass, Unlocked) -> (X, S::Pass),
    >(&self, rt: &W, pass: S::Pass, key: usize, x: X, validate: V, act: A) -> (S::Pass, X, Parked)
        requires key { key < self.now.keys }
        requires thread { S.thread pass < self.now.threads }
        requires callable { MayValidate S.Root.view key (V.pre validate x pass) }
        requires keeps { Validates S.Root.view S.thread key (S.thread pass) (V.post validate x pass) }
        requires acts { (r : S.Root) (o : _) → (S.Root.view r).key ≡ key → (S.Root.view r).owes ≡ []
            → V.post validate x pass r o → o.3 ≡ true → (unlocked : _) → A.pre act o.0 o.1 unlocked }
        requires same { (y q unlocked left : _) → A.post act y q unlocked left → S.thread left.1 ≡ S.thread q }
        ensures { (b : _) × IsReadyFor S.Root.view key self.now.threads self.now.keys b × HasPlaceFor (S.thread pass) b
            × ParkedActing S.Root.view key b (V.post validate x pass)
            (λ y q left. (unlocked : _) × A.post act y q unlocked left) S.looked result }
    {
        let (x, pass, queued, unlocked) = self.queue_up(rt, pass, key, x, validate);
        if !queued {
            return (pass, x, Parked::Invalid);
        }
        let (x, pass) = act(x, pass, unlocked);
        let (pass, token) = self.sleep(rt, pass);
        (pass, x, Parked::Woken(token))
    }

    // Validates, and queues the thread where that said yes; and the bucket is unlocked again.
    fn queue_up<W: Wait, X, V: FnOnce(X, S::Pass, S::Root) -> (X, S::Pass, S::Root, bool)>(
        &self,
        rt: &W,
        pass: S::Pass,
        key: usize,
        x: X,
        validate: V,
    ) -> (X, S::Pass, bool, Unlocked)
        requires callable { MayValidate S.Root.view key (V.pre validate x pass) }
        requires keeps { Validates S.Root.view S.thread key (S.thread pass) (V.post validate x pass) }
        ensures { (b : _) × (left : _) × IsReadyFor S.Root.view key self.now.threads self.now.keys b
            × HasPlaceFor (S.thread pass) b
            × Validated S.Root.view key (S.thread pass) b left (V.post validate x pass) result.0 result.1 result.2 }
    {
        let thread = S::thread_of(&pass);
        let (((x, pass), queued), unlocked) = self.table.with_place_for(
            rt,
            key,
            thread,
            (x, pass),
            |bucket: &mut Bucket<S::Root>, own: (X, S::Pass)| -> ((X, S::Pass), bool)
                requires ready { IsOpenFor S.Root.view key bucket.old }
                requires place { HasPlaceFor (S.thread own.1) bucket.old }
                requires callable { MayValidate S.Root.view key (V.pre validate own.0 own.1) }
                requires keeps { Validates S.Root.view S.thread key (S.thread own.1) (V.post validate own.0 own.1) }
            { park_in::<S, X, V>(bucket, key, own.0, own.1, validate) },
        );
        (x, pass, queued, unlocked)
    }

    // Sleeps until the thread's letter is there.
    fn sleep<W: Wait>(&self, rt: &W, pass: S::Pass) -> (S::Pass, Token)
        requires { S.thread pass < self.now.threads }
        ensures { Awaited S.looked pass result.1.0 result.0 }
    {
        let thread = S::thread_of(&pass);
        let record = &self.records[thread];
        let mut pass = pass;
        for _ in rt.forever() {
            let (back, letter) = self.scheme.collect(pass);
            if let Some(token) = letter {
                return (back, token);
            }
            pass = back;
            record.sleep_once(rt);
        }
        unreachable!()
    }

    /// Takes the first thread of the key's line, if there is one, and tells it what `callback` answers.
    ///
    /// `callback` is called once, under the lock of the key's bucket.
    pub fn unpark_one<W: Wait, X, Y, F: FnOnce(X, S::Root, UnparkResult) -> (Y, S::Root, Token)>(
        &self,
        rt: &W,
        key: usize,
        moment: Moment,
        x: X,
        callback: F,
    ) -> (Y, UnparkResult)
        requires key { key < self.now.keys }
        requires callable { MayUnpark S.Root.view key moment.now (F.pre callback x) }
        requires keeps { Unparks S.Root.view (λ (t : Token). t.0) key moment.now (F.post callback x) }
        ensures { (b : _) × IsReadyFor S.Root.view key self.now.threads self.now.keys b
            × UnparkedOne S.Root.view key moment b (F.post callback x) result }
    {
        let scheme = &self.scheme;
        let (y, told) = self.table.with_bucket(
            rt,
            key,
            x,
            |bucket: &mut Bucket<S::Root>, x: X| -> (Y, UnparkResult)
                requires ready { IsOpenFor S.Root.view key bucket.old }
                requires callable { MayUnpark S.Root.view key moment.now (F.pre callback x) }
                requires keeps { Unparks S.Root.view (λ (t : Token). t.0) key moment.now (F.post callback x) }
                ensures stays { Stays S.Root.view bucket.old bucket.new }
                ensures called { UnparkedOne S.Root.view key moment bucket.old (F.post callback x) result }
            { unpark_in(scheme, bucket, key, moment, x, callback) },
        );
        self.wake(rt, told.thread);
        (y, told)
    }

    /// Takes all threads of the key's line, tells each of them token 0, and answers how many it took.
    ///
    /// `f` is called once with that number, under the lock of the key's bucket.
    pub fn unpark_all<W: Wait, X, Y, F: FnOnce(X, S::Root, usize) -> (Y, S::Root)>(
        &self,
        rt: &W,
        key: usize,
        x: X,
        f: F,
    ) -> (Y, usize)
        requires key { key < self.now.keys }
        requires callable { MayUnparkAll S.Root.view key (F.pre f x) }
        requires keeps { UnparksAll S.Root.view key (F.post f x) }
        ensures { (b : _) × IsReadyFor S.Root.view key self.now.threads self.now.keys b
            × UnparkedAll S.Root.view key b (F.post f x) result }
    {
        self.unpark_count(
            rt,
            key,
            self.threads(),
            x,
            |x: X, root: S::Root, taken: usize, _more: bool| -> (Y, S::Root)
                requires { F.pre f x root taken }
                ensures { F.post f x root taken result }
            { f(x, root, taken) },
        )
    }

    /// Takes the first `count` threads of the key's line, or all where they are fewer, tells each of them token 0, and
    /// answers how many it took.
    ///
    /// `f` is called once, under the lock of the key's bucket, with that number and whether more may wait: false means
    /// that nobody is left in the line, where `count` is not 0.
    pub fn unpark_count<W: Wait, X, Y, F: FnOnce(X, S::Root, usize, bool) -> (Y, S::Root)>(
        &self,
        rt: &W,
        key: usize,
        count: usize,
        x: X,
        f: F,
    ) -> (Y, usize)
        requires key { key < self.now.keys }
        requires callable { MayUnparkCount S.Root.view self.now.threads key count (F.pre f x) }
        requires keeps { UnparksCount S.Root.view self.now.threads key count (F.post f x) }
        ensures { (b : _) × IsReadyFor S.Root.view key self.now.threads self.now.keys b
            × UnparkedCount S.Root.view self.now.threads key count b (F.post f x) result }
    {
        let scheme = &self.scheme;
        let (y, taken) = self.table.with_bucket(
            rt,
            key,
            x,
            |bucket: &mut Bucket<S::Root>, x: X| -> (Y, TakenThreads)
                requires ready { IsOpenFor S.Root.view key bucket.old }
                requires few { bucket.old.room ≤ MOST_THREADS }
                requires callable { MayUnparkCount S.Root.view bucket.old.room key count (F.pre f x) }
                requires keeps { UnparksCount S.Root.view bucket.old.room key count (F.post f x) }
                ensures stays { Stays S.Root.view bucket.old bucket.new }
                ensures called { UnparkedCount S.Root.view bucket.old.room key count bucket.old (F.post f x)
                    (result.0, result.1.count) }
            { unpark_count_in(scheme, bucket, key, count, x, f) },
        );
        self.wake_all(rt, &taken);
        (y, taken.count)
    }

    // How many threads the lot is for: no line is longer.
    pub(crate) fn threads(&self) -> usize
        ensures { result ≡ self.now.threads }
    {
        self.records.len()
    }

    fn wake<W: Wait>(&self, rt: &W, taken: Option<usize>) {
        let Some(thread) = taken else {
            return;
        };
        if let Some(record) = self.records.get(thread) {
            record.wake(rt);
        }
    }

    fn wake_all<W: Wait>(&self, rt: &W, taken: &TakenThreads) {
        for thread in &taken.threads[..taken.count] {
            self.wake(rt, Some(*thread));
        }
    }

    /// How many threads wait on the key; at the next moment it may be another number.
    pub fn line_length<W: Wait>(&self, rt: &W, key: usize) -> usize
        requires { key < self.now.keys }
    {
        self.table.with_bucket(
            rt,
            key,
            (),
            |bucket: &mut Bucket<S::Root>, _x: ()| bucket.line_length(key),
        )
    }

    /// Lets the table of buckets grow until it has three for each of so many threads, and answers what became
    /// of it. `Err` is for a request for memory that was refused, and then nothing has changed.
    ///
    /// Threads may park and unpark meanwhile. Call it as a thread comes, with the number that are registered.
    pub fn ensure<W: Wait>(&self, rt: &W, threads: usize) -> Result<Served, TableFault>
        requires { threads ≤ self.now.threads }
        ensures { IfOk result (λ g. Serves threads g) }
    {
        self.table.ensure(rt, threads)
    }

    /// Whether some thread was counted as seeking something at some moment of this call: it has missed it, and has not
    /// got it yet. Nothing is promised of it.
    pub fn has_seekers(&self) -> bool {
        self.seeking.load(Ordering::SeqCst) != 0
    }

    /// A thread begins to seek something, and is counted. Answers how many others were.
    pub fn begin_seeking(&self) -> usize {
        self.seeking.fetch_add(1, Ordering::SeqCst)
    }

    /// A thread has got what it sought, and is counted no more.
    pub fn end_seeking(&self) {
        self.seeking.fetch_sub(1, Ordering::SeqCst);
    }

    /// How many buckets there are; a moment later it may be more.
    pub fn size<W: Wait>(&self, rt: &W) -> usize
        ensures { 0 < result }
    {
        self.table.size(rt)
    }

    /// Appends each key's root to `out`, in key order, and answers the scheme.
    pub fn close<W: Wait>(self, rt: &W, out: &mut Vec<S::Root>) -> S
        requires { vec_len out.old + self.keys ≤ vec_capacity out.old }
        ensures scheme { result ≡ self.scheme }
        ensures roots { Appends S.Root.view self.keys out.old.items out.new.items }
    {
        let ParkingLot {
            scheme,
            table,
            records: _,
            seeking: _,
        } = self;
        table.close(rt, out);
        scheme
    }
}

fn new_records(alloc: Global, threads: usize) -> Result<Vec<CachePadded<Record>>, AllocError>
    ensures { IfOk result (λ v. vec_len v ≡ threads) }
{
    let mut records = Vec::with_capacity(alloc, threads)?;
    for _ in 0..threads {
        records.push(CachePadded::new(Record::new()))?;
    }
    Ok(records)
}
