//! What a thread of a lot can do on a condition.
ghost use Rattle.std.specs.Prelude.{◌≡◌, ℕ, ◌<◌, ◌≤◌, false, [], ◌∷◌};
ghost use Rattle.lot_core.specs.Steps.{IsCallCount};
ghost use Rattle.lot_order.specs.Order.{MayWait};
ghost use Rattle.lot_events.specs.declared.events.Event.TheVariants.{Look};
ghost use Rattle.lot_events.specs.declared.events.Seen.TheVariants.{Bool as Saw};
ghost use Rattle.lot_rights.specs.declared.views.Access.TheVariants.{Makes};
ghost use Rattle.lot_words.specs.World.{Holds};
ghost use Rattle.lot_words.specs.Values.{IsIn};
ghost use Rattle.lot_whole.specs.Standing.{IsIdle, keys_of};
ghost use Rattle.lot_scheme.specs.Standing.{adding};
ghost use Rattle.lot_locks.specs.Released.{IsFitting};
ghost use Rattle.lot_waits.specs.Counts.{counts_in, one_wait_more};
ghost use Rattle.lot_waits.specs.Notifying.{Notifies, NotifiesAll, HasTaken, one_if};
ghost use Rattle.lot_waits.specs.Waiting.{HasWaited};

use crate::notifying::{call_one, call_some, sweep_line};
use crate::waiting::sleep_on;
use lot_locks::{Released, get};
use lot_park::{AtOnce, BeforeSleep, Moment, ParkingLot};
use lot_scheme::{LotName, LotScheme, NamedPass, Tally};
use lot_whole::Keeps;
use std::sync::Wait;

/// Queues the thread last in the condition's line, does what `before` says, lets the lock go, sleeps until a
/// notification takes the thread from the line, and gets the lock again. Answers what became of the lock when it was
/// let go; the moment is that of this unlock.
///
/// The lock is let go when the thread is in the line, so no notification is missed that comes after it. The action runs
/// before that, with no bucket locked, and must not park. What the thread keeps beside the lock lies below it and below
/// the condition.
pub fn wait<V: Keeps + Send, N: LotName<V> + Send, C: Tally + Send, R: Wait, B: BeforeSleep>(
    rt: &R,
    parking: &ParkingLot<LotScheme<V, N, C>>,
    pass: NamedPass<V, N>,
    cond: usize,
    lock: usize,
    moment: Moment,
    before: &B,
) -> (NamedPass<V, N>, Released)
    requires cond { (N.locks ≤ cond) × (cond < N.first_sem) × (cond < parking.now.keys) }
    requires lock { (lock < N.locks) × (lock < parking.now.keys) }
    requires thread { pass.thread < parking.now.threads }
    requires idle { IsIdle pass.own }
    requires holds { Holds pass.own.locks lock }
    requires lies { (y : V) × IsIn pass.own.locks lock y }
    requires above { MayWait V.above (keys_of pass.own) cond lock }
    ensures waited { HasWaited V.Keeps pass cond lock result.1 result.0 }
    ensures idle { IsIdle result.0.own }
    ensures counts { counts_in result.0 ≡ one_wait_more (counts_in pass) cond }
    ensures fits { IsFitting result.1 false moment.now }
    ensures acted { B.ran before.now }
{
    let (pass, released) = sleep_on(rt, parking, pass, cond, lock, moment, before);
    (get(rt, parking, pass, lock, &AtOnce), released)
}

/// Whether threads may wait on the condition, by one load of its flag. It never waits; the pass has that look.
#[inline(always)]
pub fn has_waiters<V: Keeps + Send, N: LotName<V> + Send, C: Tally + Send>(
    parking: &ParkingLot<LotScheme<V, N, C>>,
    pass: NamedPass<V, N>,
    cond: usize,
) -> (NamedPass<V, N>, bool)
    requires cond { (N.locks ≤ cond) × (cond < N.first_sem) }
    requires idle { IsIdle pass.own }
    ensures pass { result.0 ≡ adding pass (Makes (Look pass.thread cond) (Saw result.1) ∷ []) }
    ensures idle { IsIdle result.0.own }
{
    parking.scheme().look(pass, cond)
}

/// Takes the first thread of the condition's line, if any, and answers whether it took one: WTF's
/// `Condition::notifyOne`. Where the flag is clear it is one load, and locks no bucket. The thread is woken after the
/// bucket is unlocked. It takes no memory.
#[inline(always)]
pub fn notify_one<V: Keeps + Send, N: LotName<V> + Send, C: Tally + Send, R: Wait>(
    rt: &R,
    parking: &ParkingLot<LotScheme<V, N, C>>,
    pass: NamedPass<V, N>,
    cond: usize,
    moment: Moment,
) -> (NamedPass<V, N>, bool)
    requires cond { (N.locks ≤ cond) × (cond < N.first_sem) × (cond < parking.now.keys) }
    requires idle { IsIdle pass.own }
    ensures pass { Notifies pass cond 1 (one_if result.1) result.0 }
    ensures taken { HasTaken pass cond (one_if result.1) result.0 }
{
    let (pass, waits) = parking.scheme().look(pass, cond);
    if !waits {
        return (pass, false);
    }
    call_one(rt, parking, pass, cond, moment)
}

/// Takes the first `count` threads of the condition's line, or all where they are fewer, in one visit of the bucket,
/// and answers how many they were: `count` times `notify_one`, that nobody can come between. Where the flag is clear it
/// is one load, and locks no bucket. The threads are woken after the bucket is unlocked. It takes no memory.
#[inline(always)]
pub fn notify_some<V: Keeps + Send, N: LotName<V> + Send, C: Tally + Send, R: Wait>(
    rt: &R,
    parking: &ParkingLot<LotScheme<V, N, C>>,
    pass: NamedPass<V, N>,
    cond: usize,
    count: usize,
) -> (NamedPass<V, N>, usize)
    requires cond { (N.locks ≤ cond) × (cond < N.first_sem) × (cond < parking.now.keys) }
    requires idle { IsIdle pass.own }
    requires count { IsCallCount count }
    ensures pass { Notifies pass cond count result.1 result.0 }
    ensures taken { HasTaken pass cond result.1 result.0 }
    ensures most { result.1 ≤ count }
{
    let (pass, waits) = parking.scheme().look(pass, cond);
    if !waits {
        return (pass, 0);
    }
    call_some(rt, parking, pass, cond, count)
}

/// Takes all threads of the condition's line, and answers how many: WTF's `Condition::notifyAll`. Where the flag is
/// clear it is one load, and locks no bucket. The threads are woken after the bucket is unlocked. It takes no memory.
#[inline(always)]
pub fn notify_all<V: Keeps + Send, N: LotName<V> + Send, C: Tally + Send, R: Wait>(
    rt: &R,
    parking: &ParkingLot<LotScheme<V, N, C>>,
    pass: NamedPass<V, N>,
    cond: usize,
) -> (NamedPass<V, N>, usize)
    requires cond { (N.locks ≤ cond) × (cond < N.first_sem) × (cond < parking.now.keys) }
    requires idle { IsIdle pass.own }
    ensures pass { NotifiesAll pass cond result.1 result.0 }
    ensures taken { HasTaken pass cond result.1 result.0 }
{
    let scheme = parking.scheme();
    let (pass, waits) = scheme.look(pass, cond);
    if !waits {
        return (pass, 0);
    }
    let pass = scheme.lower(pass, cond);
    sweep_line(rt, parking, pass, cond)
}
