//! A pass with what is kept of its counts, for the conditions of a lot; and the ledger of three of them.
ghost use Rattle.std.specs.Prelude.{◌≡◌, ◌+◌, ◌<◌, ◌≤◌, ◌++◌, List, [], ◌∷◌, MatchBool};
ghost use Rattle.std.specs.Prelude.{vec_len, vec_capacity, IfOk};
ghost use Rattle.lot_waits.specs.Counts.{CountsView, called_more, one_wait_more};
ghost use Rattle.lot_whole.specs.Standing.{IsIdle};
ghost use Rattle.lot_waits.specs.Ledger.{AreBothSums, AreZeros};
ghost use Rattle.lot_waits.specs.Notifying.{NotifiesAll, HasTaken};
ghost use Rattle.base_trials.specs.Calm.{IsCalm};
ghost use Rattle.base_trials.specs.Opened.{AreDealt, AreRootsBack, IsUntouched, size_of};
ghost use Rattle.base_trials.specs.Waits.{IsSmall, IsSmallLot};

use crate::kinds::sweeps::take_all;
use crate::kinds::tables::{
    EARLY, OneTable, Pass, Passes, Roots, Words, close_words, deal, gather,
};
use crate::rights::tally::Tally;
use lot_locks::{get, let_go};
use lot_park::{AtOnce, BeforeSleep, ParkingLot};
use lot_scheme::LotName;
use lot_waits::{
    Ledger, Tallies, add_up, count_taken, count_wait, has_waiters, ledger_of, notify_all,
    notify_one, wait,
};
use std::alloc::{AllocError, Global};
use std::marker::Model;
use std::sync::Wait;

pub(crate) type Lot<N> = ParkingLot<OneTable<N>>;

/// The pass of a thread between two calls, with what is kept of its counts. Contracts see what it has counted.
pub(crate) struct CountedPass<N: LotName<Tally>> {
    pass: Pass<N>,
    tallies: Box<Tallies>,
}

impl<N: LotName<Tally>> Model for CountedPass<N> {
    ghost use Rattle.lot_waits.specs.Counts.{CountsView, AreKept, counts_in};
    ghost use Rattle.base_trials.specs.Calm.{IsCalm};

    ghost Value = { CountsView };

    ghost view = { λ s. counts_in s.pass };

    ghost invariant = { λ s. IsCalm s.pass.thread s.pass
        × AreKept N.locks N.conds (counts_in s.pass) s.tallies.value.called.items s.tallies.value.woken.items };
}

/// What a thread does that has cleared the condition's flag, before it takes the line. No bucket is locked then.
pub(crate) trait BeforeSweep {
    fn run(&self);
}

// Notifies all in the steps of such a notification, so that the action can come between them.
fn sweep_after<N: LotName<Tally> + Send, R: Wait, B: BeforeSweep>(
    rt: &R,
    lot: &Lot<N>,
    pass: Pass<N>,
    between: &B,
) -> (Pass<N>, usize)
    requires small { IsSmallLot 3 N.locks N.conds N.first_sem lot.now.threads lot.now.keys }
    requires idle { IsIdle pass.own }
    ensures pass { NotifiesAll pass 2 result.1 result.0 }
    ensures taken { HasTaken pass 2 result.1 result.0 }
{
    let scheme = lot.scheme();
    let (pass, waits) = scheme.look(pass, 2);
    if !waits {
        return (pass, 0);
    }
    let pass = scheme.lower(pass, 2);
    between.run();
    take_all(rt, lot, pass)
}

/// What is kept of the counts of three waiters, and of their sums: nothing yet.
#[derive(Drop)]
pub(crate) struct Room {
    zero: Box<Tallies>,
    one: Box<Tallies>,
    two: Box<Tallies>,
    sums: Tallies,
}

impl Room {
    pub(crate) fn new(alloc: Global, conds: usize) -> Result<Room, AllocError>
        ensures { IfOk result (λ r. AreZeros conds r.zero.value × AreZeros conds r.one.value
            × AreZeros conds r.two.value × AreZeros conds r.sums) }
    {
        let zero = Box::new(alloc, Tallies::new(alloc, conds)?)?;
        let one = Box::new(alloc, Tallies::new(alloc, conds)?)?;
        let two = Box::new(alloc, Tallies::new(alloc, conds)?)?;
        let sums = Tallies::new(alloc, conds)?;
        Ok(Room {
            zero,
            one,
            two,
            sums,
        })
    }
}

/// The three threads of a lot, which have counted nothing yet.
pub(crate) struct Three<N: LotName<Tally>> {
    pub(crate) zero: CountedPass<N>,
    pub(crate) one: CountedPass<N>,
    pub(crate) two: CountedPass<N>,
    ghost threads: { (zero.thread ≡ 0) × (one.thread ≡ 1) × (two.thread ≡ 2) },
}

fn fresh<N: LotName<Tally>>(pass: Pass<N>, tallies: Box<Tallies>) -> CountedPass<N>
    requires fresh { IsUntouched (N.locks + N.conds) pass.thread pass }
    requires none { AreZeros N.conds tallies.value }
    ensures { result.thread ≡ pass.thread }
{
    CountedPass { pass, tallies }
}

/// The waiters of the three threads, and the sums.
pub(crate) fn deal_waiters<N: LotName<Tally>>(
    passes: &mut Passes,
    room: Room,
) -> (Three<N>, Tallies)
    requires passes { AreDealt N.opening.locks N.locks N.conds passes.old.items }
    requires room { AreZeros N.conds room.zero.value × AreZeros N.conds room.one.value
        × AreZeros N.conds room.two.value × AreZeros N.conds room.sums }
    ensures zeros { AreZeros N.conds result.1 }
    ensures room { (vec_len passes.new ≡ 0) × (3 ≤ vec_capacity passes.new) }
{
    let (zero, one, two) = deal(passes);
    let zero = fresh(zero, room.zero);
    let one = fresh(one, room.one);
    let two = fresh(two, room.two);
    (Three { zero, one, two }, room.sums)
}

// Adds to the sums what is kept of the waiter's counts.
fn added<N: LotName<Tally>>(sums: &mut Tallies, waiter: CountedPass<N>) -> Pass<N>
    requires { (waiters : List CountsView) × AreBothSums N.locks N.conds waiters sums.old }
    ensures calm { IsCalm waiter.thread result }
    ensures sums { (waiters : List CountsView) → AreBothSums N.locks N.conds waiters sums.old
        → AreBothSums N.locks N.conds (waiters ++ waiter ∷ []) sums.new }
{
    let CountedPass { pass, tallies } = waiter;
    add_up(sums, &*tallies);
    pass
}

/// Ends the words, whose rights come back, and answers the ledger of their conditions.
pub(crate) fn settle<N: LotName<Tally>>(
    words: Words,
    mut passes: Passes,
    roots: Roots,
    three: Three<N>,
    mut sums: Tallies,
) -> Ledger
    requires named { words.table ≡ N.opening.locks }
    requires size { words.size ≡ size_of N.locks N.conds }
    requires room { (vec_len passes ≡ 0) × (3 ≤ vec_capacity passes) }
    requires roots { AreRootsBack N.opening.locks (N.locks + N.conds) roots.items }
    requires zeros { AreZeros N.conds sums }
{
    let Three { zero, one, two } = three;
    let zero = added(&mut sums, zero);
    let one = added(&mut sums, one);
    let two = added(&mut sums, two);
    gather(&mut passes, zero, one, two);
    let _values = close_words::<N>(words, passes, roots);
    ledger_of(sums)
}

impl<N: LotName<Tally> + Send> CountedPass<N> {
    /// Gets the lock, waits on the condition, and lets the lock go again.
    pub(crate) fn wait<R: Wait, B: BeforeSleep>(
        self,
        rt: &R,
        lot: &Lot<N>,
        lock: usize,
        before: &B,
    ) -> CountedPass<N>
        requires small { IsSmallLot 3 N.locks N.conds N.first_sem lot.now.threads lot.now.keys }
        requires lock { lock < 2 }
        requires thread { self.thread < 3 }
        ensures { result ≡ one_wait_more self 2 }
    {
        let CountedPass { pass, tallies } = self;
        let owner = get(rt, lot, pass, lock, &AtOnce);
        let (again, _released) = wait(rt, lot, owner, 2, lock, EARLY, before);
        let (pass, _released) = let_go(rt, lot, again, lock, EARLY, false);
        let tallies = count_wait(tallies, 2, 2);
        CountedPass { pass, tallies }
    }

    /// Whether somebody may wait.
    pub(crate) fn has_waiters(self, lot: &Lot<N>) -> (CountedPass<N>, bool)
        requires small { IsSmall N.locks N.conds N.first_sem }
        ensures { result.0 ≡ self }
    {
        let CountedPass { pass, tallies } = self;
        let (pass, set) = has_waiters(lot, pass, 2);
        (CountedPass { pass, tallies }, set)
    }

    /// Whether it took one.
    pub(crate) fn notify_one<R: Wait>(self, rt: &R, lot: &Lot<N>) -> (CountedPass<N>, bool)
        requires small { IsSmallLot 3 N.locks N.conds N.first_sem lot.now.threads lot.now.keys }
        ensures { MatchBool result.1 (result.0 ≡ called_more self 2 1) (result.0 ≡ self) }
    {
        let CountedPass { pass, tallies } = self;
        let (pass, took) = notify_one(rt, lot, pass, 2, EARLY);
        if took {
            let tallies = count_taken(tallies, 2, 2, 1);
            (CountedPass { pass, tallies }, true)
        } else {
            (CountedPass { pass, tallies }, false)
        }
    }

    /// How many it took.
    pub(crate) fn notify_all<R: Wait>(self, rt: &R, lot: &Lot<N>) -> (CountedPass<N>, usize)
        requires small { IsSmallLot 3 N.locks N.conds N.first_sem lot.now.threads lot.now.keys }
        ensures { result.0 ≡ called_more self 2 result.1 }
    {
        let CountedPass { pass, tallies } = self;
        let (pass, count) = notify_all(rt, lot, pass, 2);
        let tallies = count_taken(tallies, 2, 2, count);
        (CountedPass { pass, tallies }, count)
    }

    /// The same in its steps, with an action between the clearing of the flag and the taking of the line.
    pub(crate) fn notify_all_after<R: Wait, B: BeforeSweep>(
        self,
        rt: &R,
        lot: &Lot<N>,
        between: &B,
    ) -> (CountedPass<N>, usize)
        requires small { IsSmallLot 3 N.locks N.conds N.first_sem lot.now.threads lot.now.keys }
        ensures { result.0 ≡ called_more self 2 result.1 }
    {
        let CountedPass { pass, tallies } = self;
        let (pass, count) = sweep_after(rt, lot, pass, between);
        let tallies = count_taken(tallies, 2, 2, count);
        (CountedPass { pass, tallies }, count)
    }
}
