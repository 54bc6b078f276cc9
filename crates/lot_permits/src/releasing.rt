//! Giving a permit back, as WTF's `Lock::unlock` lets a lock go: a load and one compare-exchange where nobody waits,
//! else one sleeper is taken from the line, and the permit is left to whoever comes first.
ghost use Rattle.std.specs.Prelude.{◌≡◌, ℕ, ◌<◌, Bool, []};
ghost use Rattle.lot_park.specs.Parking.{Tells};
ghost use Rattle.lot_scheme.specs.Roots.{OwesFirst};

use crate::permit::Freed;
use crate::steps::SemSteps;
use lot_park::{Moment, ParkingLot, Token, UnparkResult};
use std::sync::Wait;

/// The token of all letters of semaphores: whoever finds it tries again.
const TRY_AGAIN: Token = Token(0);

/// Gives a permit back: at once where nobody is parked.
#[inline(always)]
pub(crate) fn give<S: SemSteps, R: Wait>(
    rt: &R,
    parking: &ParkingLot<S>,
    pass: S::Pass,
    key: usize,
    moment: Moment,
) -> (S::Pass, Freed)
    requires key { key < parking.now.keys }
    requires has { S.has parking.now.scheme key }
    requires may { S.may_give pass key }
    ensures { S.gives pass key result.1 result.0 }
{
    let (pass, freed) = parking.scheme().free(pass, key);
    if freed {
        (pass, Freed::Quiet)
    } else {
        unpark(rt, parking, pass, key, moment)
    }
}

/// Takes one sleeper from the semaphore's line, if any is there, and gives the permit back. What the callback decides
/// is answered.
#[cold]
#[inline(never)]
fn unpark<S: SemSteps, R: Wait>(
    rt: &R,
    parking: &ParkingLot<S>,
    pass: S::Pass,
    key: usize,
    moment: Moment,
) -> (S::Pass, Freed)
    requires key { key < parking.now.keys }
    requires may { S.may_give pass key }
    ensures { (more : Bool) × S.passes pass key more result.1 result.0 }
{
    let scheme = parking.scheme();
    let (given, _) = parking.unpark_one(
        rt,
        key,
        moment,
        pass,
        |pass: S::Pass, root: S::Root, told: UnparkResult| -> ((S::Pass, Freed), S::Root, Token)
            requires key { (S.Root.view root).key ≡ key }
            requires may { S.may_give pass (S.Root.view root).key }
            requires clear { (S.Root.view root).owes ≡ [] }
            requires told { (now : ℕ) × Tells (S.Root.view root).line now told }
            ensures passes { S.passes pass (S.Root.view root).key told.more result.0.1 result.0.0 }
            ensures takes { OwesFirst S.Root.view root told.thread 0 result.1 }
            ensures token { result.2.0 ≡ 0 }
        {
            let (pass, root, freed) = scheme.give_on(pass, root, key, told);
            ((pass, freed), root, TRY_AGAIN)
        },
    );
    given
}
