//! Work on the value of a lock.
ghost use Rattle.std.specs.Prelude.{◌≡◌, ◌<◌};
ghost use Rattle.lot_order.specs.Order.{AllBelow};
ghost use Rattle.lot_sync.specs.Lot.{Owns, OwnsNone, HasShape, keys_of};
ghost use Rattle.lot_sync.specs.Traces.{Adds};
ghost use Rattle.lot_calls.specs.Traces.{VisitTrace};
ghost use Rattle.lot_words.specs.Values.{MayBecome};
ghost use Rattle.lot_calls.specs.Visits.{Finds, Visits};

use lot_sync::{Lot, LotName, Moment, Pass, Tally};
use lot_words::Keeps;
use std::sync::Wait;

/// Gets the lock, works on its value, and lets the lock go:
/// `let (pass, ()) = with_lock(rt, lot, pass, 0, now, |n| *n += 1);`. The pass may own other locks, and hold permits,
/// that lie below this lock in the order of `V`. It waits as `lock` and `unlock` do, and the moment is that of the
/// unlock. Of the value that it finds the work may take what the pass knows of it (`Finds`): it goes on from all that
/// the pass had seen of it, and has its own part unchanged.
pub fn with_lock<
    V: Keeps + Send,
    O,
    N: LotName<V> + Send,
    C: Tally + Send,
    T: Wait,
    F: FnOnce(&mut V) -> O,
>(
    rt: &T,
    lot: &Lot<V, N, C>,
    pass: Pass<V, N>,
    key: usize,
    moment: Moment,
    work: F,
) -> (Pass<V, N>, O)
    requires key { key < lot.now.locks }
    requires not_owned { ¬ Owns pass key }
    requires above { AllBelow V.above (keys_of pass) key }
    requires callable { (v : _) → V.keeps key v.now → Finds V.Keeps pass key v.now → F.pre work v }
    requires keeps { (v : _) (o : _) (w : _) → V.keeps key v.now → Finds V.Keeps pass key v.now → F.post work v o w
        → MayBecome V.Keeps key pass.thread v.now w.now }
    ensures visits { (v : _) × (w : _) × F.post work v result.1 w × Visits V.Keeps pass key v.now w.now result.0 }
    ensures made { Adds pass.made (VisitTrace pass.thread key moment.now) result.0.made }
    ensures shape { HasShape lot.now result.0 }
    ensures free { OwnsNone pass → OwnsNone result.0 }
{
    let (pass, mut held) = lot.lock(rt, pass, key);
    let outcome = work(held.value_mut());
    let (pass, _) = lot.unlock(rt, pass, held, moment);
    (pass, outcome)
}

/// `with_lock` for work that takes the value and gives one back:
/// `let (pass, n) = with_value(rt, lot, pass, 0, now, |v| (v.next(), v.n));`.
pub fn with_value<
    V: Keeps + Send,
    O,
    N: LotName<V> + Send,
    C: Tally + Send,
    T: Wait,
    F: FnOnce(V) -> (V, O),
>(
    rt: &T,
    lot: &Lot<V, N, C>,
    pass: Pass<V, N>,
    key: usize,
    moment: Moment,
    work: F,
) -> (Pass<V, N>, O)
    requires key { key < lot.now.locks }
    requires not_owned { ¬ Owns pass key }
    requires above { AllBelow V.above (keys_of pass) key }
    requires callable { (v : V) → V.keeps key v → Finds V.Keeps pass key v → F.pre work v }
    requires keeps { (v : V) (left : _) → V.keeps key v → Finds V.Keeps pass key v → F.post work v left
        → MayBecome V.Keeps key pass.thread v left.0 }
    ensures visits { (v : V) × (w : V) × F.post work v (w, result.1) × Visits V.Keeps pass key v w result.0 }
    ensures made { Adds pass.made (VisitTrace pass.thread key moment.now) result.0.made }
    ensures shape { HasShape lot.now result.0 }
    ensures free { OwnsNone pass → OwnsNone result.0 }
{
    let (pass, held) = lot.lock(rt, pass, key);
    let (held, outcome) = held.replace_with(work);
    let (pass, _) = lot.unlock(rt, pass, held, moment);
    (pass, outcome)
}
