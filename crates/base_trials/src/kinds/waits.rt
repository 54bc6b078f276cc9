//! Waits and notifications in a lot of two locks and one condition, and what the ledger says of them.
ghost use Rattle.std.specs.Prelude.{◌≡◌, ◌<◌, None, [], IsSomeAnd};
ghost use Rattle.lot_waits.specs.Counts.{called_more, one_wait_more};
ghost use Rattle.base_trials.specs.Opened.{IsOpened};
ghost use Rattle.base_trials.specs.Waits.{EndsThere, IsSmall, IsSmallLot};

use crate::asserts::{failed, is_so, opened_lot};
use crate::kinds::asserts::{count_is, is_not, ledger_is};
use crate::kinds::tables::{EARLY, Opened, THREADS, name_roots, open_words, unname_roots};
use crate::kinds::waiters::{BeforeSweep, CountedPass, Lot, Room, Three, deal_waiters, settle};
use crate::rights::tally::Tally;
use lot_park::{BeforeSleep, ParkingLot, Scheme, Token, UnparkResult};
use lot_scheme::{LotName, LotScheme};
use lot_waits::Ledger;
use std::alloc::Global;
use std::marker::Brand;
use std::process::Abort;
use std::sync::Wait;
use std::sync::atomic::{AtomicU64, Ordering};
use std::test::*;
use std::thread;
use std::thread::Threads;

// How often a thread asks for what is to come.
const ASKINGS: u64 = 10_000_000;

// What threads tell each other: the first is in the line, and was taken from it; the flag was cleared, and another is
// in the line.
#[derive(Drop)]
struct Signs {
    queued: AtomicU64,
    taken: AtomicU64,
    cleared: AtomicU64,
    late: AtomicU64,
}

impl Signs {
    fn new() -> Signs {
        Signs {
            queued: AtomicU64::new(0),
            taken: AtomicU64::new(0),
            cleared: AtomicU64::new(0),
            late: AtomicU64::new(0),
        }
    }
}

fn raise(sign: &AtomicU64) {
    sign.store(1, Ordering::SeqCst);
}

fn is_raised(sign: &AtomicU64) -> bool {
    for _ in 0..ASKINGS {
        if sign.load(Ordering::SeqCst) == 1 {
            return true;
        }
        thread::yield_now();
    }
    false
}

// A thread raises its sign, and does not go on before another has raised the other one.
#[derive(Drop)]
struct Meets<'a, R> {
    rt: &'a R,
    sign: &'a AtomicU64,
    other: &'a AtomicU64,
}

impl<R: Abort> Meets<'_, R> {
    fn meet(&self) {
        raise(self.sign);
        is_so(self.rt, is_raised(self.other), "the other has come");
    }
}

// The first is in the line, and does not sleep before it was taken from it.
impl<R: Abort> BeforeSleep for Meets<'_, R> {
    fn run(&self) {
        self.meet();
    }
}

// Between the clearing of the flag and the taking of the line, the late thread comes into the line.
impl<R: Abort> BeforeSweep for Meets<'_, R> {
    fn run(&self) {
        self.meet();
    }
}

// The late one is in the line.
#[derive(Drop)]
struct Late<'a> {
    signs: &'a Signs,
}

impl BeforeSleep for Late<'_> {
    fn run(&self) {
        raise(&self.signs.late);
    }
}

// What was lent to a thread comes back: a closure can't hold a waiter.
fn give_back<T>(here: &mut Option<T>, lent: T)
    requires { here.old ≡ None }
    ensures { here.new ≡ Some lent }
{
    match here.replace(lent) {
        None => {}
        Some(_) => unreachable!(),
    }
}

// Where a thread's pass lies, or two, which is lent: a closure can't hold a pass.
type Place<N> = Option<CountedPass<N>>;

type TwoPlaces<N> = Option<(CountedPass<N>, CountedPass<N>)>;

// A lot of two locks and a condition, on which three threads wait and notify.
#[derive(Drop)]
struct OnLot<'a, N: LotName<Tally> + Send, R> {
    rt: &'a R,
    lot: &'a Lot<N>,
    ghost small: { IsSmallLot 3 N.locks N.conds N.first_sem lot.now.threads lot.now.keys },
}

impl<N: LotName<Tally> + Send + Sync, R: Wait + Abort> OnLot<'_, N, R> {
    // Waits with the lock 0, and is taken from the line before it sleeps.
    fn wait_until_taken(&self, here: &mut Place<N>, signs: &Signs)
        requires thread { IsSomeAnd here.old (λ p. p.thread < 3) }
        ensures { EndsThere (λ p. one_wait_more p 2) here.old here.new }
    {
        let zero = here.take().unwrap();
        let meets = Meets {
            rt: self.rt,
            sign: &signs.queued,
            other: &signs.taken,
        };
        give_back(here, zero.wait(self.rt, self.lot, 0, &meets));
    }

    // Takes the thread that is in the line, by a notification of one or of all, and says so.
    fn take_it(&self, one: CountedPass<N>, signs: &Signs, all: bool) -> CountedPass<N>
        ensures { result ≡ called_more one 2 1 }
    {
        is_so(self.rt, is_raised(&signs.queued), "the first waits");
        if all {
            let (one, count) = one.notify_all(self.rt, self.lot);
            count_is(self.rt, count, 1);
            raise(&signs.taken);
            one
        } else {
            let (one, took) = one.notify_one(self.rt, self.lot);
            is_so(self.rt, took, "somebody is taken");
            raise(&signs.taken);
            one
        }
    }

    // The second, which was lent, takes the first.
    fn take_the_first(&self, here: &mut Place<N>, signs: &Signs, all: bool)
        requires lent { IsSomeAnd here.old (λ p. p.thread < 3) }
        ensures { EndsThere (λ p. called_more p 2 1) here.old here.new }
    {
        let one = here.take().unwrap();
        give_back(here, self.take_it(one, signs, all));
    }
}

impl<N: LotName<Tally> + Send + Sync, R: Threads + Wait + Abort + Sync> OnLot<'_, N, R> {
    // Both at once.
    fn taken_by_the_second(
        &self,
        first: &mut Place<N>,
        second: &mut Place<N>,
        signs: &Signs,
        all: bool,
    )
        requires first { IsSomeAnd first.old (λ p. p.thread < 3) }
        requires second { IsSomeAnd second.old (λ p. p.thread < 3) }
        ensures first { EndsThere (λ p. one_wait_more p 2) first.old first.new }
        ensures second { EndsThere (λ p. called_more p 2 1) second.old second.new }
    {
        let mut waits = ||
            requires first { IsSomeAnd first.now (λ p. p.thread < 3) }
            ensures { EndsThere (λ p. one_wait_more p 2) first.entry.now first.exit.now }
        { self.wait_until_taken(first, signs) };
        let mut takes = ||
            requires second { IsSomeAnd second.now (λ p. p.thread < 3) }
            ensures { EndsThere (λ p. called_more p 2 1) second.entry.now second.exit.now }
        { self.take_the_first(second, signs, all) };
        thread::join_mut(self.rt, &mut waits, &mut takes);
    }

    // The first waits, and the second takes it before it sleeps: it does not sleep.
    fn taken_before_sleep(
        &self,
        zero: CountedPass<N>,
        one: CountedPass<N>,
        all: bool,
    ) -> (CountedPass<N>, CountedPass<N>)
        requires threads { (zero.thread ≡ 0) × (one.thread ≡ 1) }
        ensures zero { result.0 ≡ one_wait_more zero 2 }
        ensures one { result.1 ≡ called_more one 2 1 }
    {
        let signs = Signs::new();
        let mut first = Some(zero);
        let mut second = Some(one);
        self.taken_by_the_second(&mut first, &mut second, &signs, all);
        let (one, set) = second.unwrap().has_waiters(self.lot);
        is_not(self.rt, set);
        (first.unwrap(), one)
    }

    // The thread is taken from the line before it sleeps, by a notification of one: it does not sleep. Then nobody
    // waits.
    fn notified_before_sleep(
        &self,
        zero: CountedPass<N>,
        one: CountedPass<N>,
    ) -> (CountedPass<N>, CountedPass<N>)
        requires threads { (zero.thread ≡ 0) × (one.thread ≡ 1) }
        ensures zero { result.0 ≡ one_wait_more zero 2 }
        ensures one { result.1 ≡ called_more one 2 1 }
    {
        let (zero, one) = self.taken_before_sleep(zero, one, false);
        (zero, self.notify_nobody(self.notify_no_one(one)))
    }
}

impl<N: LotName<Tally> + Send + Sync, R: Wait + Abort> OnLot<'_, N, R> {
    // A notification of one finds nobody.
    fn notify_no_one(&self, one: CountedPass<N>) -> CountedPass<N>
        ensures { result ≡ one }
    {
        let (one, took) = one.notify_one(self.rt, self.lot);
        is_not(self.rt, took);
        one
    }

    // A notification of all finds nobody.
    fn notify_nobody(&self, one: CountedPass<N>) -> CountedPass<N>
        ensures { result ≡ one }
    {
        let (one, count) = one.notify_all(self.rt, self.lot);
        count_is(self.rt, count, 0);
        one
    }

    // Takes both who wait, once the first does, and the flag that the late one set stays. The next notification finds
    // nobody, and clears it. Then it says that they were taken.
    fn take_both(&self, one: CountedPass<N>, signs: &Signs) -> CountedPass<N>
        ensures { result ≡ called_more one 2 2 }
    {
        is_so(self.rt, is_raised(&signs.queued), "the first waits");
        let meets = Meets {
            rt: self.rt,
            sign: &signs.cleared,
            other: &signs.late,
        };
        let (one, count) = one.notify_all_after(self.rt, self.lot, &meets);
        count_is(self.rt, count, 2);
        let (one, set) = one.has_waiters(self.lot);
        is_so(self.rt, set, "the flag is set");
        let one = self.notify_no_one(one);
        let (one, set) = one.has_waiters(self.lot);
        is_not(self.rt, set);
        raise(&signs.taken);
        one
    }

    // The second takes the first, and the late one with it.
    fn take_the_late_too(&self, here: &mut Place<N>, signs: &Signs)
        requires lent { IsSomeAnd here.old (λ p. p.thread < 3) }
        ensures { EndsThere (λ p. called_more p 2 2) here.old here.new }
    {
        let one = here.take().unwrap();
        give_back(here, self.take_both(one, signs));
    }

    // Waits with the lock 1 once the flag was cleared, and says so when it is in the line.
    fn wait_late(&self, here: &mut Place<N>, signs: &Signs)
        requires thread { IsSomeAnd here.old (λ p. p.thread < 3) }
        ensures { EndsThere (λ p. one_wait_more p 2) here.old here.new }
    {
        is_so(self.rt, is_raised(&signs.cleared), "the flag is cleared");
        let two = here.take().unwrap();
        give_back(here, two.wait(self.rt, self.lot, 1, &Late { signs }));
    }
}

impl<N: LotName<Tally> + Send + Sync, R: Threads + Wait + Abort + Sync> OnLot<'_, N, R> {
    // Two of the three: the second, which takes, and the late one.
    fn take_and_come(&self, second: &mut Place<N>, late: &mut Place<N>, signs: &Signs)
        requires second { IsSomeAnd second.old (λ p. p.thread < 3) }
        requires late { IsSomeAnd late.old (λ p. p.thread < 3) }
        ensures second { EndsThere (λ p. called_more p 2 2) second.old second.new }
        ensures late { EndsThere (λ p. one_wait_more p 2) late.old late.new }
    {
        let mut takes = ||
            requires second { IsSomeAnd second.now (λ p. p.thread < 3) }
            ensures { EndsThere (λ p. called_more p 2 2) second.entry.now second.exit.now }
        { self.take_the_late_too(second, signs) };
        let mut comes = ||
            requires late { IsSomeAnd late.now (λ p. p.thread < 3) }
            ensures { EndsThere (λ p. one_wait_more p 2) late.entry.now late.exit.now }
        { self.wait_late(late, signs) };
        thread::join_mut(self.rt, &mut takes, &mut comes);
    }

    // The second and the late one, which were lent.
    fn take_and_come_lent(&self, here: &mut TwoPlaces<N>, signs: &Signs)
        requires lent { IsSomeAnd here.old (λ p. (p.0.thread < 3) × (p.1.thread < 3)) }
        ensures { EndsThere (λ p. (called_more p.0 2 2, one_wait_more p.1 2)) here.old here.new }
    {
        let (one, two) = here.take().unwrap();
        let mut second = Some(one);
        let mut late = Some(two);
        self.take_and_come(&mut second, &mut late, signs);
        give_back(here, (second.unwrap(), late.unwrap()));
    }

    // All three at once.
    fn side_by_side(&self, first: &mut Place<N>, others: &mut TwoPlaces<N>, signs: &Signs)
        requires first { IsSomeAnd first.old (λ p. p.thread < 3) }
        requires others { IsSomeAnd others.old (λ p. (p.0.thread < 3) × (p.1.thread < 3)) }
        ensures first { EndsThere (λ p. one_wait_more p 2) first.old first.new }
        ensures others { EndsThere (λ p. (called_more p.0 2 2, one_wait_more p.1 2)) others.old others.new }
    {
        let mut waits = ||
            requires first { IsSomeAnd first.now (λ p. p.thread < 3) }
            ensures { EndsThere (λ p. one_wait_more p 2) first.entry.now first.exit.now }
        { self.wait_until_taken(first, signs) };
        let mut rest = ||
            requires others { IsSomeAnd others.now (λ p. (p.0.thread < 3) × (p.1.thread < 3)) }
            ensures { EndsThere (λ p. (called_more p.0 2 2, one_wait_more p.1 2)) others.entry.now others.exit.now }
        { self.take_and_come_lent(others, signs) };
        thread::join_mut(self.rt, &mut waits, &mut rest);
    }

    // A thread begins to wait after the flag was cleared and before the line is taken: it is taken with the one that
    // waited before.
    fn taken_after_the_flag_was_cleared(
        &self,
        zero: CountedPass<N>,
        one: CountedPass<N>,
        two: CountedPass<N>,
    ) -> (CountedPass<N>, CountedPass<N>, CountedPass<N>)
        requires threads { (zero.thread ≡ 0) × (one.thread ≡ 1) × (two.thread ≡ 2) }
        ensures zero { result.0 ≡ one_wait_more zero 2 }
        ensures one { result.1 ≡ called_more one 2 2 }
        ensures two { result.2 ≡ one_wait_more two 2 }
    {
        let signs = Signs::new();
        let mut first = Some(zero);
        let mut others = Some((one, two));
        self.side_by_side(&mut first, &mut others, &signs);
        let (one, two) = others.unwrap();
        (first.unwrap(), one, two)
    }
}

// Whoever is told of an unparking of the condition does this, while its bucket is locked: nobody waits. Written for
// every scheme, since a closure's signature can't name the roots of a lot.
fn under_the_lock<S: Scheme, X, F: FnOnce(X) -> X, R: Wait + Abort>(
    rt: &R,
    lot: &ParkingLot<S>,
    x: X,
    act: F,
) -> X
    requires key { 2 < lot.now.keys }
    requires callable { F.pre act x }
    ensures { F.post act x result }
{
    let (x, _told) = lot.unpark_one(
        rt,
        2,
        EARLY,
        x,
        |x: X, root: S::Root, told: UnparkResult| -> (X, S::Root, Token)
            requires callable { F.pre act x }
            ensures did { F.post act x result.0 }
            ensures root { (result.1 ≡ root) × (told.thread ≡ None) }
        {
            is_so(rt, told.thread.is_none(), "nobody is taken");
            (act(x), root, Token(0))
        },
    );
    x
}

impl<N: LotName<Tally> + Send + Sync, R: Wait + Abort> OnLot<'_, N, R> {
    // A notification while the bucket of the condition is locked: nobody waits, so it locks none.
    fn notifies_under_the_lock(&self, one: CountedPass<N>) -> CountedPass<N>
        ensures { result ≡ one }
    {
        let notifies = |one: CountedPass<N>| -> CountedPass<N>
            ensures { result ≡ one }
        { self.notify_no_one(one) };
        under_the_lock(self.rt, self.lot, one, notifies)
    }
}

impl<N: LotName<Tally> + Send + Sync, R: Threads + Wait + Abort + Sync> OnLot<'_, N, R> {
    // Plays all schedules.
    fn played(&self, three: Three<N>) -> Three<N> {
        let Three { zero, one, two } = three;
        let one = self.notifies_under_the_lock(one);
        let (zero, one) = self.notified_before_sleep(zero, one);
        let (zero, one) = self.taken_before_sleep(zero, one, true);
        let (zero, one, two) = self.taken_after_the_flag_was_cleared(zero, one, two);
        Three { zero, one, two }
    }
}

// Plays on a lot, and closes it: what the ledger then says.
fn play<N: LotName<Tally> + Send + Sync, R: Threads + Wait + Abort + Sync>(
    rt: &R,
    alloc: Global,
    opened: Opened,
) -> Ledger
    requires opened { IsOpened 2 1 N.opening.locks opened.0.table opened.0.size opened.1.items opened.2.items }
    requires named { (N.threads ≡ 3) × (N.permits ≡ []) × IsSmall N.locks N.conds N.first_sem }
{
    let (words, mut passes, mut roots) = opened;
    let Ok(room) = Room::new(alloc, 1) else {
        failed(rt, "no memory")
    };
    let (three, sums) = deal_waiters::<N>(&mut passes, room);
    let named = name_roots::<N>(rt, alloc, &mut roots);
    let (lot, mut back) = opened_lot(rt, alloc, THREADS, named, LotScheme::new(words, 2, 3));
    let three = OnLot { rt, lot: &lot }.played(three);
    let words = lot.close(rt, &mut back).into_words();
    unname_roots(&mut roots, back);
    settle(words, passes, roots, three, sums)
}

#[test]
fn waits_and_notifications(rt: HostRuntime) {
    let Ok(opened) = open_words(rt.alloc(), 2, 1) else {
        failed(&rt, "no memory")
    };
    let ledger = play::<Brand, HostRuntime>(&rt, rt.alloc(), opened);
    ledger_is(&rt, &ledger, &[4]);
}
