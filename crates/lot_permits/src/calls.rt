//! What a thread can do on a semaphore, with its pass.
ghost use Rattle.std.specs.Prelude.{◌≡◌, ◌≢◌, ℕ, ◌+◌, ◌<◌, ◌≤◌, length};
ghost use Rattle.lot_core.specs.Parts.{IsAmongSemaphores};
ghost use Rattle.lot_order.specs.Order.{AllBelow};
ghost use Rattle.lot_whole.specs.Standing.{IsIdle, keys_of};
ghost use Rattle.lot_scheme.specs.SemCalls.{opening_permits};
ghost use Rattle.lot_permits.specs.Freed.{GivesPermit};
ghost use Rattle.lot_permits.specs.Permits.{HasPermit, permits_with};
ghost use Rattle.lot_permits.specs.Seeking.{GetsPermit};
ghost use Rattle.lot_permits.specs.Tries.{TriesToGet};

use crate::getting::get_slowly;
use crate::permit::{Freed, Permit, Tried};
use crate::releasing::give;
use lot_park::{Moment, ParkingLot};
use lot_scheme::{LotName, LotScheme, NamedPass, Tally};
use lot_sems::{PERMIT, Taken};
use lot_whole::Keeps;
use std::sync::Wait;

/// Gets a permit where one is left, and else leaves all as it was. It never waits: a load, and where that found a
/// permit, one compare-exchange of the semaphore's word.
#[inline(always)]
pub fn try_acquire<V: Keeps, N: LotName<V>, C: Tally>(
    scheme: &LotScheme<V, N, C>,
    pass: NamedPass<V, N>,
    key: usize,
) -> (NamedPass<V, N>, Tried<V, N>)
    requires sem { IsAmongSemaphores N.first_sem (length N.permits) key }
    requires idle { IsIdle pass.own }
    ensures tries { TriesToGet pass key result.1 result.0 }
    ensures idle { IsIdle result.0.own }
{
    let (pass, taken) = scheme.try_take_permit(pass, key);
    match taken {
        Taken::Got => {
            let permit = Permit::new(key, pass.thread());
            (pass, Tried::Got(permit))
        }
        Taken::Empty => (pass, Tried::Empty),
        Taken::Busy => (pass, Tried::Busy),
    }
}

/// Gets a permit, waiting for it where none is left. Where one is, it is a load and one compare-exchange of the
/// semaphore's word. It takes no memory. All that the thread has lies below the semaphore.
#[inline(always)]
pub fn acquire<V: Keeps + Send, N: LotName<V> + Send, C: Tally + Send, R: Wait>(
    rt: &R,
    parking: &ParkingLot<LotScheme<V, N, C>>,
    pass: NamedPass<V, N>,
    key: usize,
) -> (NamedPass<V, N>, Permit<V, N>)
    requires sem { IsAmongSemaphores N.first_sem (length N.permits) key }
    requires key { key < parking.now.keys }
    requires thread { pass.thread < parking.now.threads }
    requires idle { IsIdle pass.own }
    requires above { AllBelow V.above (keys_of pass.own) key }
    ensures permit { (result.1.key ≡ key) × (result.1.thread ≡ pass.thread) }
    ensures gets { GetsPermit pass key result.0 }
    ensures idle { IsIdle result.0.own }
{
    let (pass, taken) = parking.scheme().take_permit(pass, key);
    let pass = match taken {
        Taken::Got => pass,
        Taken::Empty | Taken::Busy => get_slowly(rt, parking, pass, key, taken),
    };
    let permit = Permit::new(key, pass.thread());
    (pass, permit)
}

/// Gives a permit back. Where nobody is parked it is a load and one compare-exchange of the semaphore's word; else the
/// first thread of the line, if any, is taken from it and woken after the bucket is unlocked. It takes no memory.
///
/// The permit is left to whoever comes first: a thread that was woken tries again.
#[inline(always)]
pub fn release<V: Keeps + Send, N: LotName<V> + Send, C: Tally + Send, R: Wait>(
    rt: &R,
    parking: &ParkingLot<LotScheme<V, N, C>>,
    pass: NamedPass<V, N>,
    permit: Permit<V, N>,
    moment: Moment,
) -> (NamedPass<V, N>, Freed)
    requires key { permit.key < parking.now.keys }
    requires idle { IsIdle pass.own }
    requires has { HasPermit pass permit }
    ensures gives { GivesPermit pass permit.key result.1 result.0 }
    ensures idle { IsIdle result.0.own }
{
    let key = permit.into_key();
    give::<LotScheme<V, N, C>, R>(rt, parking, pass, key, moment)
}

/// Gives both passes back as they were. The point is what it proves: they are of two threads, and of each semaphore
/// both hold together at most as many permits as there were at the opening.
pub fn check_permits<V: Keeps, N: LotName<V>, C: Tally>(
    scheme: &LotScheme<V, N, C>,
    first: NamedPass<V, N>,
    second: NamedPass<V, N>,
) -> (NamedPass<V, N>, NamedPass<V, N>)
    ensures same { (result.0 ≡ first) × (result.1 ≡ second) }
    ensures threads { first.thread ≢ second.thread }
    ensures permits { (k : ℕ) → permits_with first k + permits_with second k ≤ opening_permits N.first_sem N.permits k }
{
    scheme.check_apart(first, second)
}

/// How many permits of the semaphore were left just now, by one load. It is an observation: nothing is promised of it.
#[inline(always)]
pub fn permits_left<V: Keeps, N: LotName<V>, C: Tally>(
    scheme: &LotScheme<V, N, C>,
    key: usize,
) -> u64
    requires { IsAmongSemaphores N.first_sem (length N.permits) key }
{
    scheme.sem_bits(key) / PERMIT
}
