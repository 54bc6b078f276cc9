//! What is done under the lock of a bucket.

ghost use Rattle.std.specs.Prelude.{◌≡◌, ◌<◌, ◌≤◌, [], ◌∷◌, ◌++◌, Option, Some, None, IsSome, length, take};
ghost use Rattle.std.specs.Prelude.{if◌then◌else◌, nat_lt, not, ◌&&◌, ◌==◌};
ghost use Rattle.lot_bucket.specs.Queue.{line_of, without_count};
ghost use Rattle.lot_bucket.specs.Places.{root_at, with_root};
ghost use Rattle.lot_bucket.specs.Settled.{HasPlaceFor, Stays};
ghost use Rattle.lot_bucket.specs.Taking.{TakesOne, TakesFirst};
ghost use Rattle.lot_park.specs.Parking.{IsOpenFor, TellsCount, debt, debts, MayUnpark, Unparks, UnparkedOne};
ghost use Rattle.lot_park.specs.Parking.{MayUnparkCount, UnparksCount, UnparkedCount, MayValidate, Validates};
ghost use Rattle.lot_park.specs.Parking.{Validated};

use crate::scheme::{Scheme, Token};
use crate::taken::TakenThreads;
use lot_bucket::{Bucket, Dequeued as UnparkResult, Moment, Root};
use lot_table::MOST_THREADS;

/// Validates, and queues the pass's thread last where that says yes. It does not wait in the bucket yet.
pub fn park_in<S: Scheme, X, V: FnOnce(X, S::Pass, S::Root) -> (X, S::Pass, S::Root, bool)>(
    bucket: &mut Bucket<S::Root>,
    key: usize,
    x: X,
    pass: S::Pass,
    validate: V,
) -> ((X, S::Pass), bool)
    requires ready { IsOpenFor S.Root.view key bucket.old }
    requires place { HasPlaceFor (S.thread pass) bucket.old }
    requires callable { MayValidate S.Root.view key (V.pre validate x pass) }
    requires keeps { Validates S.Root.view S.thread key (S.thread pass) (V.post validate x pass) }
    ensures stays { Stays S.Root.view bucket.old bucket.new }
    ensures called { Validated S.Root.view key (S.thread pass) bucket.old bucket.new (V.post validate x pass) result.0.0
        result.0.1 result.1 }
{
    let thread = S::thread_of(&pass);
    let root = bucket.take_root(key);
    let (x, pass, root, queued) = validate(x, pass, root);
    enqueue_if(queued, bucket, thread, key);
    bucket.put_root(key, root);
    ((x, pass), queued)
}

/// Takes the first thread of the key's line, and posts the letter that the callback decides on.
pub fn unpark_in<S: Scheme, X, Y, F: FnOnce(X, S::Root, UnparkResult) -> (Y, S::Root, Token)>(
    scheme: &S,
    bucket: &mut Bucket<S::Root>,
    key: usize,
    moment: Moment,
    x: X,
    callback: F,
) -> (Y, UnparkResult)
    requires ready { IsOpenFor S.Root.view key bucket.old }
    requires callable { MayUnpark S.Root.view key moment.now (F.pre callback x) }
    requires keeps { Unparks S.Root.view (λ (t : Token). t.0) key moment.now (F.post callback x) }
    ensures stays { Stays S.Root.view bucket.old bucket.new }
    ensures took { TakesOne key moment bucket.old (record bucket.new { places = bucket.old.places }) result.1 }
    ensures called { UnparkedOne S.Root.view key moment bucket.old (F.post callback x) result }
{
    let root = bucket.take_root(key);
    let told = bucket.dequeue_one(key, moment);
    let (y, root, token) = callback(x, root, told);
    let root = pay(scheme, root, told.thread, token);
    bucket.put_root(key, root);
    (y, told)
}

/// Takes the first `count` of the key's line, or all where they are fewer, and posts a letter with token 0 to each.
pub fn unpark_count_in<S: Scheme, X, Y, F: FnOnce(X, S::Root, usize, bool) -> (Y, S::Root)>(
    scheme: &S,
    bucket: &mut Bucket<S::Root>,
    key: usize,
    count: usize,
    x: X,
    f: F,
) -> (Y, TakenThreads)
    requires ready { IsOpenFor S.Root.view key bucket.old }
    requires few { bucket.old.room ≤ MOST_THREADS }
    requires callable { MayUnparkCount S.Root.view bucket.old.room key count (F.pre f x) }
    requires keeps { UnparksCount S.Root.view bucket.old.room key count (F.post f x) }
    ensures stays { Stays S.Root.view bucket.old bucket.new }
    ensures took { (more : _) × TakesFirst count key bucket.old (record bucket.new { places = bucket.old.places })
        (take result.1.count result.1.threads) result.1.count more }
    ensures called { UnparkedCount S.Root.view bucket.old.room key count bucket.old (F.post f x)
        (result.0, result.1.count) }
{
    let mut threads = [0; MOST_THREADS];
    let (root, taken, more) = take_first(bucket, key, count, &mut threads);
    let (y, root) = f(x, root, taken, more);
    let root = pay_all(scheme, root, &threads[..taken]);
    bucket.put_root(key, root);
    (y, taken_of(threads, taken))
}

fn taken_of(threads: [usize; MOST_THREADS], count: usize) -> TakenThreads
    requires { count ≤ MOST_THREADS }
    ensures threads { result.threads ≡ threads }
    ensures count { result.count ≡ count }
{
    TakenThreads { threads, count }
}

// Takes the root out, and the first `count` of the line, which it writes to the front of `out`. It answers how many
// they were, and whether more may wait.
fn take_first<R: Root>(
    bucket: &mut Bucket<R>,
    key: usize,
    count: usize,
    out: &mut [usize],
) -> (R, usize, bool)
    requires root { IsSome (root_at key bucket.old.places) }
    requires few { bucket.old.room ≤ length out.old }
    ensures root { root_at key bucket.old.places ≡ Some result.0 }
    ensures told { TellsCount bucket.old.room count (line_of key bucket.old.queue) result.1 result.2 }
    ensures within { result.1 ≤ bucket.old.room }
    ensures line { take result.1 out.new ≡ take count (line_of key bucket.old.queue) }
    ensures others { result.2 ≡ (nat_lt 0 result.1 && not (length bucket.new.queue == 0)) }
    ensures left { bucket.new ≡ record bucket.old {
      places = with_root key None bucket.old.places;
      queue = without_count count key bucket.old.queue;
    } }
{
    prove!(bucket.len() <= bucket.room());
    let root = bucket.take_root(key);
    let (taken, more) = bucket.dequeue_count(key, count, out);
    (root, taken, more)
}

// Posts a letter with token 0 to each of the threads, to whom the root owes them.
fn pay_all<S: Scheme>(scheme: &S, root: S::Root, threads: &[usize]) -> S::Root
    requires { (S.Root.view root).owes ≡ debts threads.now }
    ensures key { (S.Root.view result).key ≡ (S.Root.view root).key }
    ensures line { (S.Root.view result).line ≡ (S.Root.view root).line }
    ensures paid { (S.Root.view result).owes ≡ [] }
{
    let mut root = root;
    for thread in threads {
        root = scheme.post(root, *thread, Token(0));
    }
    root
}

fn enqueue_if<R>(queued: bool, bucket: &mut Bucket<R>, thread: usize, key: usize)
    requires { length bucket.old.queue < bucket.old.room }
    ensures { bucket.new ≡ record bucket.old
        { queue = (if queued then bucket.old.queue ++ (thread, key) ∷ [] else bucket.old.queue) } }
{
    if queued {
        bucket.enqueue(thread, key);
    }
}

// Posts the letter to the thread that was taken, if one was.
fn pay<S: Scheme>(scheme: &S, root: S::Root, taken: Option<usize>, token: Token) -> S::Root
    requires { (S.Root.view root).owes ≡ debt taken token.0 }
    ensures key { (S.Root.view result).key ≡ (S.Root.view root).key }
    ensures line { (S.Root.view result).line ≡ (S.Root.view root).line }
    ensures paid { (S.Root.view result).owes ≡ [] }
{
    match taken {
        Some(thread) => scheme.post(root, thread, token),
        None => root,
    }
}
