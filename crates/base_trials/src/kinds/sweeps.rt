//! A thread is taken from a condition's line before it sleeps, by its own action: by a notification while it has its
//! lock yet, and by a sweep of a flag that was cleared before it parked. All in one thread.
ghost use Rattle.std.specs.Prelude.{◌≡◌, ◌<◌, ℕ, Bool, true, length, [], MatchBool};
ghost use Rattle.lot_locks.specs.declared.released.Released.{Released};
ghost use Rattle.lot_park.specs.Parking.{Queues, Tells};
ghost use Rattle.lot_waits.specs.Notifying.{Dequeues, DequeuesAll, one_of};
ghost use Rattle.lot_waits.specs.Waiting.{Slept};
ghost use Rattle.base_trials.specs.Calm.{IsCalm, HasSetOut};
ghost use Rattle.base_trials.specs.Opened.{IsOpened};
ghost use Rattle.base_trials.specs.Waits.{IsSmall, IsSmallLot};

use crate::asserts::{bits_are, failed, opened_lot};
use crate::kinds::asserts::{count_is, is_not, parked_is};
use crate::kinds::tables::{
    EARLY, OneTable, Opened, Pass, THREADS, close_words, deal, gather, name_roots, open_words,
    unname_roots,
};
use crate::kinds::waiters::Lot;
use crate::rights::tally::Tally;
use lot_locks::{get, let_go};
use lot_park::{AtOnce, Parked, ParkingLot, Token, Unlocked, UnparkResult};
use lot_scheme::{LotName, LotScheme};
use lot_waits::{CondSteps, notify_one};
use std::alloc::Global;
use std::marker::Brand;
use std::process::Abort;
use std::sync::Wait;
use std::test::*;

/// Sweeps the condition, whose flag the pass has lowered, and answers how many threads were in its line.
pub(crate) fn take_all<S: CondSteps, R: Wait>(
    rt: &R,
    lot: &ParkingLot<S>,
    pass: S::Pass,
) -> (S::Pass, usize)
    requires key { 2 < lot.now.keys }
    requires lowered { S.may_sweep pass 2 }
    ensures { S.sweeps pass 2 result.1 result.0 }
{
    let scheme = lot.scheme();
    lot.unpark_all(
        rt,
        2,
        pass,
        |pass: S::Pass, root: S::Root, count: usize| -> (S::Pass, S::Root)
            requires key { (S.Root.view root).key ≡ 2 }
            requires lowered { S.may_sweep pass (S.Root.view root).key }
            requires clear { (S.Root.view root).owes ≡ [] }
            requires count { count ≡ length (S.Root.view root).line }
            ensures pass { S.sweeps pass (S.Root.view root).key count result.0 }
            ensures root { DequeuesAll S.Root.view root result.1 }
        { scheme.sweep_all(pass, root, 2, count) },
    )
}

// Sweeps the condition, in whose line one thread is.
fn take_one<S: CondSteps, R: Wait + Abort>(rt: &R, lot: &ParkingLot<S>, pass: S::Pass) -> S::Pass
    requires key { 2 < lot.now.keys }
    requires lowered { S.may_sweep pass 2 }
    ensures { S.sweeps pass 2 1 result }
{
    let (pass, count) = take_all(rt, lot, pass);
    count_is(rt, count, 1);
    pass
}

// Takes the one thread that is in the condition's line, as a notification does that finds the flag set.
fn call_the_first<S: CondSteps, R: Wait + Abort>(
    rt: &R,
    lot: &ParkingLot<S>,
    pass: S::Pass,
) -> S::Pass
    requires key { 2 < lot.now.keys }
    requires may { S.may_call pass 2 }
    ensures { (more : Bool) × S.calls pass 2 1 1 more result }
{
    let scheme = lot.scheme();
    let (pass, told) = lot.unpark_one(
        rt,
        2,
        EARLY,
        pass,
        |pass: S::Pass, root: S::Root, told: UnparkResult| -> (S::Pass, S::Root, Token)
            requires key { (S.Root.view root).key ≡ 2 }
            requires may { S.may_call pass (S.Root.view root).key }
            requires clear { (S.Root.view root).owes ≡ [] }
            requires told { (now : ℕ) × Tells (S.Root.view root).line now told }
            ensures pass { S.calls pass (S.Root.view root).key 1 (one_of told.thread) told.more result.0 }
            ensures root { Dequeues S.Root.view 1 root result.1 }
            ensures token { result.2.0 ≡ 0 }
        {
            let taken = count_of(told.thread);
            let (pass, root) = scheme.call_first(pass, root, 2, 1, taken, told.more);
            (pass, root, Token(0))
        },
    );
    count_is(rt, count_of(told.thread), 1);
    pass
}

fn count_of(taken: Option<usize>) -> usize
    ensures { result ≡ one_of taken }
{
    match taken {
        Some(_) => 1,
        None => 0,
    }
}

// The first, which has the lock 0, parks, which sets the flag, and lets its lock go. The second takes it from the line:
// by a sweep after that, or by a notification before. So it does not sleep.
fn sleep_taken<S: CondSteps, R: Wait + Abort>(
    rt: &R,
    lot: &ParkingLot<S>,
    zero: S::Pass,
    one: S::Pass,
    swept: bool,
) -> (S::Pass, S::Pass)
    requires keys { 2 < lot.now.keys }
    requires has { S.has lot.now.scheme 0 }
    requires thread { S.thread zero < lot.now.threads }
    requires may { S.may_enlist zero 2 0 }
    requires takes { MatchBool swept (S.may_sweep one 2) (S.may_call one 2) }
    ensures slept { (became : Released) × Slept S.enlists S.lets_go S.looked zero 2 0 became result.0 }
    ensures took { MatchBool swept (S.sweeps one 2 1 result.1) ((more : Bool) × S.calls one 2 1 1 more result.1) }
{
    let scheme = lot.scheme();
    let (zero, one, parked) = lot.park_acting(
        rt,
        zero,
        2,
        one,
        |one: S::Pass, zero: S::Pass, root: S::Root| -> (S::Pass, S::Pass, S::Root, bool)
            requires key { (S.Root.view root).key ≡ 2 }
            requires may { S.may_enlist zero (S.Root.view root).key 0 }
            ensures same { result.0 ≡ one }
            ensures pass { S.enlists zero (S.Root.view root).key 0 result.1 }
            ensures lets { S.may_let_go result.1 0 }
            ensures root { Queues S.Root.view S.thread zero root true result.1 result.2 }
            ensures says { result.3 ≡ true }
        {
            let (zero, root) = scheme.enlist_last(zero, root, 2, 0);
            (one, zero, root, true)
        },
        |one: S::Pass, zero: S::Pass, _unlocked: Unlocked| -> (S::Pass, S::Pass)
            requires keys { 2 < lot.now.keys }
            requires has { S.has lot.now.scheme 0 }
            requires may { S.may_let_go zero 0 }
            requires takes { MatchBool swept (S.may_sweep one 2) (S.may_call one 2) }
            ensures thread { S.thread result.1 ≡ S.thread zero }
            ensures went { (became : Released) × S.lets_go zero 0 became result.1 }
            ensures took { MatchBool swept (S.sweeps one 2 1 result.0)
                ((more : Bool) × S.calls one 2 1 1 more result.0) }
        {
            if swept {
                let (zero, _released) = let_go(rt, lot, zero, 0, EARLY, false);
                (take_one(rt, lot, one), zero)
            } else {
                let one = call_the_first(rt, lot, one);
                let (zero, _released) = let_go(rt, lot, zero, 0, EARLY, false);
                (one, zero)
            }
        },
    );
    parked_is(rt, parked, Parked::Woken(Token(0)));
    (zero, one)
}

// Thread 1 clears the flag where it is to sweep.
fn set_out<N: LotName<Tally> + Send>(scheme: &OneTable<N>, pass: Pass<N>, swept: bool) -> Pass<N>
    requires small { IsSmall N.locks N.conds N.first_sem }
    requires calm { IsCalm 1 pass }
    ensures { MatchBool swept (HasSetOut pass 2 result) (result ≡ pass) }
{
    if swept { scheme.lower(pass, 2) } else { pass }
}

// A sweep has left the flag that thread 0 set, though nobody waits: the next notification takes nobody, and clears it.
// A notification has cleared the flag.
fn clear_flag<N: LotName<Tally> + Send, R: Wait + Abort>(
    rt: &R,
    lot: &Lot<N>,
    pass: Pass<N>,
    swept: bool,
) -> Pass<N>
    requires small { IsSmallLot 3 N.locks N.conds N.first_sem lot.now.threads lot.now.keys }
    requires calm { IsCalm 1 pass }
    ensures { IsCalm 1 result }
{
    let words = lot.scheme().words();
    if !swept {
        bits_are(rt, words.bits(2), 0);
        return pass;
    }
    bits_are(rt, words.bits(2), 1);
    let (pass, took) = notify_one(rt, lot, pass, 2, EARLY);
    is_not(rt, took);
    bits_are(rt, words.bits(2), 0);
    pass
}

// Thread 0 waits, and thread 1 takes it from the line before it sleeps: it does not sleep, and gets its lock again. A
// notification takes it while it has its lock yet. A sweep takes it once it has let its lock go, and before it waits
// thread 1 has cleared the flag for that.
fn taken_before_it_sleeps<N: LotName<Tally> + Send, R: Wait + Abort>(
    rt: &R,
    lot: &Lot<N>,
    zero: Pass<N>,
    one: Pass<N>,
    swept: bool,
) -> (Pass<N>, Pass<N>)
    requires small { IsSmallLot 3 N.locks N.conds N.first_sem lot.now.threads lot.now.keys }
    requires calm { IsCalm 0 zero × IsCalm 1 one }
    ensures { IsCalm 0 result.0 × IsCalm 1 result.1 }
{
    let owner = get(rt, lot, zero, 0, &AtOnce);
    let one = set_out(lot.scheme(), one, swept);
    let (slept, one) = sleep_taken(rt, lot, owner, one, swept);
    count_is(rt, lot.line_length(rt, 2), 0);
    let one = clear_flag(rt, lot, one, swept);
    let again = get(rt, lot, slept, 0, &AtOnce);
    let (zero, _released) = let_go(rt, lot, again, 0, EARLY, false);
    (zero, one)
}

// Plays on a lot, and closes it.
fn play<N: LotName<Tally> + Send, R: Wait + Abort>(rt: &R, alloc: Global, opened: Opened)
    requires opened { IsOpened 2 1 N.opening.locks opened.0.table opened.0.size opened.1.items opened.2.items }
    requires named { (N.threads ≡ 3) × (N.permits ≡ []) × IsSmall N.locks N.conds N.first_sem }
{
    let (words, mut passes, mut roots) = opened;
    let (zero, one, two) = deal::<N>(&mut passes);
    let named = name_roots::<N>(rt, alloc, &mut roots);
    let (lot, mut back) = opened_lot(rt, alloc, THREADS, named, LotScheme::new(words, 2, 3));
    let (zero, one) = taken_before_it_sleeps(rt, &lot, zero, one, false);
    let (zero, one) = taken_before_it_sleeps(rt, &lot, zero, one, true);
    gather(&mut passes, zero, one, two);
    let words = lot.close(rt, &mut back).into_words();
    unname_roots(&mut roots, back);
    let _values = close_words::<N>(words, passes, roots);
}

#[test]
fn who_is_taken_before_its_sleep_does_not_sleep(rt: HostRuntime) {
    let Ok(opened) = open_words(rt.alloc(), 2, 1) else {
        failed(&rt, "no memory")
    };
    play::<Brand, HostRuntime>(&rt, rt.alloc(), opened);
}
