//! Waiting on a condition, as WTF's `Condition::wait` does until it gets the lock again.
ghost use Rattle.std.specs.Prelude.{◌≡◌, ◌<◌, true, false};
ghost use Rattle.lot_park.specs.Parking.{Queues};
ghost use Rattle.lot_locks.specs.Released.{IsFitting};
ghost use Rattle.lot_waits.specs.Waiting.{Slept};

use crate::steps::CondSteps;
use lot_locks::{Released, let_go};
use lot_park::{BeforeSleep, Moment, ParkingLot, Unlocked};
use std::sync::Wait;

/// Queues the thread last in the condition's line, acts, lets the lock go, and sleeps until a notification takes the
/// thread from the line. Where one takes it before it sleeps, it does not sleep. The action runs with no bucket locked.
pub(crate) fn sleep_on<S: CondSteps, R: Wait, B: BeforeSleep>(
    rt: &R,
    parking: &ParkingLot<S>,
    pass: S::Pass,
    cond: usize,
    lock: usize,
    moment: Moment,
    before: &B,
) -> (S::Pass, Released)
    requires cond { cond < parking.now.keys }
    requires lock { (lock < parking.now.keys) × S.has parking.now.scheme lock }
    requires thread { S.thread pass < parking.now.threads }
    requires may { S.may_enlist pass cond lock }
    ensures slept { Slept S.enlists S.lets_go S.looked pass cond lock result.1 result.0 }
    ensures fits { IsFitting result.1 false moment.now }
    ensures acted { B.ran before.now }
{
    let scheme = parking.scheme();
    let (pass, released, _) = parking.park_acting(
        rt,
        pass,
        cond,
        Released::Quiet,
        |x: Released, pass: S::Pass, root: S::Root| -> (Released, S::Pass, S::Root, bool)
            requires key { (S.Root.view root).key ≡ cond }
            requires may { S.may_enlist pass (S.Root.view root).key lock }
            ensures pass { S.enlists pass (S.Root.view root).key lock result.1 }
            ensures lets { S.may_let_go result.1 lock }
            ensures queues { (result.3 ≡ true) × Queues S.Root.view S.thread pass root true result.1 result.2 }
        {
            let (pass, root) = scheme.enlist_last(pass, root, cond, lock);
            (x, pass, root, true)
        },
        |_quiet: Released, pass: S::Pass, _unlocked: Unlocked| -> (Released, S::Pass)
            requires lock { (lock < parking.now.keys) × S.has parking.now.scheme lock }
            requires may { S.may_let_go pass lock }
            ensures thread { S.thread result.1 ≡ S.thread pass }
            ensures went { S.lets_go pass lock result.0 result.1 }
            ensures fits { IsFitting result.0 false moment.now }
            ensures acted { B.ran before.entry.now }
        { leave(rt, parking, pass, lock, moment, before) },
    );
    (pass, released)
}

/// What a thread does that is in the condition's line, with no bucket locked: it acts, and lets its lock go. That it
/// may let it go is known here only once it acted.
fn leave<S: CondSteps, R: Wait, B: BeforeSleep>(
    rt: &R,
    parking: &ParkingLot<S>,
    pass: S::Pass,
    lock: usize,
    moment: Moment,
    before: &B,
) -> (Released, S::Pass)
    requires lock { (lock < parking.now.keys) × S.has parking.now.scheme lock }
    requires may { B.ran before.now → S.may_let_go pass lock }
    ensures thread { S.thread result.1 ≡ S.thread pass }
    ensures went { S.lets_go pass lock result.0 result.1 }
    ensures fits { IsFitting result.0 false moment.now }
    ensures acted { B.ran before.now }
{
    before.run();
    let (pass, released) = let_go(rt, parking, pass, lock, moment, false);
    (released, pass)
}
