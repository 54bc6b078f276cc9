//! Waiting on a condition until a lock's value is as wanted.
ghost use Rattle.std.specs.Prelude.{◌≡◌, ℕ, ◌<◌, true, false};
ghost use Rattle.lot_order.specs.Order.{AllBelow, MayWait};
ghost use Rattle.lot_sync.specs.Lot.{◌≈◌, Owns, OwnsNone, HasShape, IsCond, keys_of, owning};
ghost use Rattle.lot_sync.specs.Values.{MayGiveBack};
ghost use Rattle.lot_sync.specs.Holding.{Holding};
ghost use Rattle.lot_sync.specs.Traces.{Adds};
ghost use Rattle.lot_calls.specs.Traces.{GetAfterTrace};
ghost use Rattle.lot_calls.specs.Visits.{Finds};
ghost use Rattle.lot_calls.specs.Waits.{WaitsOn, WaitsWhile, GetsAfter, woken_from};

use lot_sync::{Held, Lot, LotName, Moment, Pass, Tally};
use lot_words::Keeps;
use std::sync::Wait;

/// Waits on the condition until the value is as wanted:
/// `let (pass, held) = wait_until(rt, lot, pass, held, NOT_EMPTY, now, |q| !q.is_empty());`. Where it is so already
/// there is no wait, and each wait begins with a value that is not. The moment is that of the unlock in each wait.
pub fn wait_until<
    V: Keeps + Send,
    N: LotName<V> + Send,
    C: Tally + Send,
    T: Wait,
    F: Fn(&V) -> bool,
>(
    rt: &T,
    lot: &Lot<V, N, C>,
    pass: Pass<V, N>,
    held: Held<V, N>,
    cond: usize,
    moment: Moment,
    ready: F,
) -> (Pass<V, N>, Held<V, N>)
    requires key { held.key < lot.now.locks }
    requires owns { Owns pass held.key }
    requires shape { HasShape lot.now pass }
    requires back { MayGiveBack V.Keeps pass held }
    requires cond { IsCond lot.now cond }
    requires above { MayWait V.above (keys_of pass) cond held.key }
    requires callable { (v : _) → V.keeps held.key v.now → F.pre ready v }
    ensures waits { WaitsOn V.Keeps (λ x. (v : _) × (v.now ≡ x) × F.post ready v false) pass held cond moment.now
        result.1 result.0 }
    ensures ready { (v : _) × (v.now ≡ result.1.value) × F.post ready v true }
    ensures owns { Owns result.0 held.key }
    ensures shape { HasShape lot.now result.0 }
{
    let mut pass = pass;
    let mut held = held;
    for _ in rt.forever() {
        if ready(held.value()) {
            return (pass, held);
        }
        let (woken, again) = lot.wait(rt, pass, held, cond, moment);
        pass = woken;
        held = again;
    }
    unreachable!()
}

/// Gets the lock when its value is as wanted: `lock`, and then `wait_until`, which does not wait where the value that
/// was found is so already.
pub fn lock_until<
    V: Keeps + Send,
    N: LotName<V> + Send,
    C: Tally + Send,
    T: Wait,
    F: Fn(&V) -> bool,
>(
    rt: &T,
    lot: &Lot<V, N, C>,
    pass: Pass<V, N>,
    key: usize,
    cond: usize,
    moment: Moment,
    ready: F,
) -> (Pass<V, N>, Held<V, N>)
    requires key { key < lot.now.locks }
    requires not_owned { ¬ Owns pass key }
    requires cond { IsCond lot.now cond }
    requires above { AllBelow V.above (keys_of pass) key × AllBelow V.above (keys_of pass) cond }
    requires callable { (v : _) → V.keeps key v.now → F.pre ready v }
    ensures gets { GetsAfter V.Keeps pass key result.1 result.0 }
    ensures made { (count : ℕ) × Adds pass.made (GetAfterTrace pass.thread cond key moment.now count) result.0.made
        × ((first : V) × Finds V.Keeps pass key first
        × WaitsWhile V.grows (λ x. (v : _) × (v.now ≡ x) × F.post ready v false) count first result.1.value)
        × (result.0 ≈ woken_from (owning pass key result.1.value) cond count) }
    ensures holding { OwnsNone pass → Holding V.grows result.0 result.1 }
    ensures ready { (v : _) × (v.now ≡ result.1.value) × F.post ready v true }
    ensures owns { Owns result.0 key }
    ensures shape { HasShape lot.now result.0 }
{
    let (pass, held) = lot.lock(rt, pass, key);
    wait_until(rt, lot, pass, held, cond, moment, ready)
}
