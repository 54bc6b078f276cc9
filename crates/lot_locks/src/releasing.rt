//! Letting a lock go, as WTF's `Lock::unlock` does: one compare-exchange where nobody waits, else one sleeper is taken
//! from the line, and the lock is handed to it or left to whoever comes first.
ghost use Rattle.std.specs.Prelude.{◌≡◌, ℕ, ◌<◌, Bool, false, MatchBool, []};
ghost use Rattle.lot_locks.specs.Standing.{MayFree, LetsGo, IsFoundParked};
ghost use Rattle.lot_locks.specs.Released.{IsFitting, HandsOver};
ghost use Rattle.lot_locks.specs.declared.released.Released.TheVariants.{Quiet};
ghost use Rattle.lot_park.specs.Parking.{Tells};

use crate::released::Released;
use crate::steps::LockSteps;
use lot_park::{Moment, ParkingLot, Scheme, Token, UnparkResult};
use lot_scheme::{LotName, LotScheme, NamedPass, Tally};
use lot_whole::Keeps;
use std::sync::Wait;

/// One compare-exchange: the lock is let go where nobody is parked, and else found parked.
#[inline(always)]
pub fn free_unparked<V: Keeps, N: LotName<V>, C: Tally>(
    scheme: &LotScheme<V, N, C>,
    pass: NamedPass<V, N>,
    key: usize,
) -> (NamedPass<V, N>, bool)
    requires key { key < N.locks }
    requires may { MayFree pass key }
    ensures { MatchBool result.1 (LetsGo pass key Quiet result.0) (IsFoundParked pass key result.0) }
{
    scheme.free(pass, key)
}

/// Lets the lock go: at once where nobody is parked.
#[inline(always)]
pub fn let_go<S: LockSteps, R: Wait>(
    rt: &R,
    parking: &ParkingLot<S>,
    pass: S::Pass,
    key: usize,
    moment: Moment,
    fair: bool,
) -> (S::Pass, Released)
    requires key { key < parking.now.keys }
    requires has { S.has parking.now.scheme key }
    requires may { S.may_let_go pass key }
    ensures thread { S.thread result.0 ≡ S.thread pass }
    ensures went { S.lets_go pass key result.1 result.0 }
    ensures fits { IsFitting result.1 fair moment.now }
{
    let (pass, freed) = parking.scheme().free(pass, key);
    if freed {
        (pass, Released::Quiet)
    } else {
        unpark(rt, parking, pass, key, moment, fair)
    }
}

/// The lock was found parked: asks for the moment, and takes one sleeper from its line.
#[cold]
#[inline(never)]
pub fn unpark_asking<S: LockSteps, R: Wait, M: FnOnce() -> Moment>(
    rt: &R,
    parking: &ParkingLot<S>,
    pass: S::Pass,
    key: usize,
    moment: M,
) -> (S::Pass, Released)
    requires key { key < parking.now.keys }
    requires may { S.may_pass pass key }
    requires callable { M.pre moment }
    ensures thread { S.thread result.0 ≡ S.thread pass }
    ensures went { (more : Bool) × S.passes_on pass key more result.1 result.0 }
    ensures fits { (m : _) × M.post moment m × IsFitting result.1 false m.now }
{
    let now = moment();
    unpark(rt, parking, pass, key, now, false)
}

/// The lock was found parked: takes one sleeper from its line, if any is there, and hands the lock to it or lets it go.
/// What the callback decides is answered.
#[cold]
#[inline(never)]
fn unpark<S: LockSteps, R: Wait>(
    rt: &R,
    parking: &ParkingLot<S>,
    pass: S::Pass,
    key: usize,
    moment: Moment,
    fair: bool,
) -> (S::Pass, Released)
    requires key { key < parking.now.keys }
    requires may { S.may_pass pass key }
    ensures thread { S.thread result.0 ≡ S.thread pass }
    ensures went { (more : Bool) × S.passes_on pass key more result.1 result.0 }
    ensures fits { IsFitting result.1 fair moment.now }
{
    let scheme = parking.scheme();
    let (went, _) = parking.unpark_one(
        rt,
        key,
        moment,
        pass,
        |pass: S::Pass, root: S::Root, told: UnparkResult| -> ((S::Pass, Released), S::Root, Token)
            requires key { (S.Root.view root).key ≡ key }
            requires may { S.may_pass pass (S.Root.view root).key }
            requires clear { (S.Root.view root).owes ≡ [] }
            requires told { (now : ℕ) × Tells (S.Root.view root).line now told }
            ensures thread { S.thread result.0.0 ≡ S.thread pass }
            ensures went { S.passes_on pass (S.Root.view root).key told.more result.0.1 result.0.0 }
            ensures hands { HandsOver S.Root.view root told fair result.1 result.0.1 result.2.0 }
        {
            let (pass, root, token, released) = scheme.hand_over(pass, root, key, told, fair);
            ((pass, released), root, token)
        },
    );
    went
}
