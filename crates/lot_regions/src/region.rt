//! Regions: work on the value of a lock after which each condition is told for which the value is ready.
ghost use Rattle.std.specs.Prelude.{◌≡◌, ◌<◌, ◌≤◌, ◌-◌, ℕ, true, false};
ghost use Rattle.lot_sync.specs.Lot.{◌≈◌, Owns, OwnsNone, HasSeen, HasShape, letting_go};
ghost use Rattle.lot_sync.specs.Traces.{Adds};
ghost use Rattle.lot_sync.specs.Values.{MayGiveBack};
ghost use Rattle.lot_words.specs.Values.{MayBecome};
ghost use Rattle.lot_calls.specs.Visits.{Finds};
ghost use Rattle.lot_calls.specs.Waits.{WaitsWhile, woken_from};
ghost use Rattle.lot_regions.specs.Traces.{LeaveTrace, ChangeTrace, WhenTrace};
ghost use Rattle.lot_regions.specs.Regions.{AreConds, Region};

use crate::ready::Ready;
use lot_calls::wait_until;
use lot_sync::{Held, Lot, LotName, Moment, Pass, Tally};
use std::sync::Wait;

/// Gets the lock, works on its value, lets the lock go, and tells each condition of the lock for which the value that
/// was left is ready: `let (pass, ()) = change(rt, lot, pass, 0, now, |n| *n += 1);`.
pub fn change<
    V: Ready + Send,
    O,
    N: LotName<V> + Send,
    C: Tally + Send,
    T: Wait,
    F: FnOnce(&mut V) -> O,
>(
    rt: &T,
    lot: &Lot<V, N, C>,
    pass: Pass<V, N>,
    key: usize,
    moment: Moment,
    work: F,
) -> (Pass<V, N>, O)
    requires key { key < lot.now.locks }
    requires conds { AreConds lot.now (V.first key) (V.behind key) }
    requires free { OwnsNone pass }
    requires callable { (v : _) → Finds V.Keeps pass key v.now → F.pre work v }
    requires keeps { (v : _) (o : _) (w : _) → Finds V.Keeps pass key v.now → F.post work v o w
        → MayBecome V.Keeps key pass.thread v.now w.now }
    ensures visits { (v : _) × (w : _) × F.post work v result.1 w × Region V.Keeps pass key v.now w.now result.0
        × Adds pass.made (ChangeTrace (λ c. V.ready c w.now) pass.thread key moment.now (V.first key)
        (V.behind key - V.first key)) result.0.made }
    ensures woken { result.0.woken ≡ pass.woken }
    ensures shape { HasShape lot.now result.0 }
    ensures free { OwnsNone result.0 }
{
    let (pass, mut held) = lot.lock(rt, pass, key);
    let outcome = work(held.value_mut());
    let first = V::first_of(key);
    let behind = V::behind_of(key);
    (leave(rt, lot, pass, held, first, behind, moment), outcome)
}

/// `change` once the value is ready for the condition, one of the lock's: until then it waits there, and each wait
/// begins with a value that is not.
/// `let (pass, item) = when(rt, lot, pass, LINE, NOT_EMPTY, now, |line| line.take());`.
pub fn when<
    V: Ready + Send,
    O,
    N: LotName<V> + Send,
    C: Tally + Send,
    T: Wait,
    F: FnOnce(&mut V) -> O,
>(
    rt: &T,
    lot: &Lot<V, N, C>,
    pass: Pass<V, N>,
    key: usize,
    cond: usize,
    moment: Moment,
    work: F,
) -> (Pass<V, N>, O)
    requires key { key < lot.now.locks }
    requires conds { AreConds lot.now (V.first key) (V.behind key) }
    requires cond { (V.first key ≤ cond) × (cond < V.behind key) }
    requires free { OwnsNone pass }
    requires callable { (v : _) → Finds V.Keeps pass key v.now → V.ready cond v.now ≡ true → F.pre work v }
    requires keeps { (v : _) (o : _) (w : _) → Finds V.Keeps pass key v.now → V.ready cond v.now ≡ true
        → F.post work v o w → MayBecome V.Keeps key pass.thread v.now w.now }
    ensures visits { (v : _) × (w : _) × F.post work v result.1 w × Region V.Keeps pass key v.now w.now result.0
        × (V.ready cond v.now ≡ true)
        × ((count : ℕ) × Adds pass.made (WhenTrace (λ c. V.ready c w.now) pass.thread cond count key moment.now
        (V.first key) (V.behind key - V.first key)) result.0.made × ((first : V) × Finds V.Keeps pass key first
        × WaitsWhile V.grows (λ x. V.ready cond x ≡ false) count first v.now)
        × (result.0.woken ≡ (woken_from pass cond count).woken)) }
    ensures shape { HasShape lot.now result.0 }
    ensures free { OwnsNone result.0 }
{
    let (pass, held) = lot.lock(rt, pass, key);
    let ready = |value: &V| -> bool
        ensures { result ≡ V.ready cond value.now }
    { value.is_ready(cond) };
    let (pass, mut held) = wait_until(rt, lot, pass, held, cond, moment, ready);
    let outcome = work(held.value_mut());
    let first = V::first_of(key);
    let behind = V::behind_of(key);
    (leave(rt, lot, pass, held, first, behind, moment), outcome)
}

/// Lets the lock go, and then tells each of these conditions for which the value is ready: which they are is looked up
/// before, the last first.
fn leave<V: Ready + Send, N: LotName<V> + Send, C: Tally + Send, T: Wait>(
    rt: &T,
    lot: &Lot<V, N, C>,
    pass: Pass<V, N>,
    held: Held<V, N>,
    first: usize,
    behind: usize,
    moment: Moment,
) -> Pass<V, N>
    requires key { held.key < lot.now.locks }
    requires conds { AreConds lot.now first behind }
    requires owns { Owns pass held.key }
    requires back { MayGiveBack V.Keeps pass held }
    ensures left { result ≈ record (letting_go pass held.key held.value) { called = result.called } }
    ensures made { Adds pass.made (LeaveTrace (λ c. V.ready c held.value) pass.thread held.key moment.now first
        (behind - first)) result.made }
    ensures seen { HasSeen result held.key held.value }
    ensures shape { HasShape lot.now result }
{
    if first >= behind {
        return lot.unlock(rt, pass, held, moment).0;
    }
    let cond = behind - 1;
    let is_ready = held.value().is_ready(cond);
    let pass = leave(rt, lot, pass, held, first, cond, moment);
    if is_ready {
        lot.notify_one(rt, pass, cond, moment).0
    } else {
        pass
    }
}
