//! Work on the values of two locks.
ghost use Rattle.std.specs.Prelude.{◌≡◌, ◌≢◌, ◌<◌};
ghost use Rattle.lot_order.specs.Order.{AllBelow};
ghost use Rattle.lot_sync.specs.Lot.{Owns, OwnsNone, HasShape, keys_of};
ghost use Rattle.lot_sync.specs.Traces.{Adds};
ghost use Rattle.lot_calls.specs.Traces.{BothTrace, NestedTrace};
ghost use Rattle.lot_words.specs.Values.{MayBecome};
ghost use Rattle.lot_calls.specs.Visits.{Finds, VisitsBoth};

use lot_sync::{Lot, LotName, Moment, Pass, Tally};
use lot_words::Keeps;
use std::sync::Wait;

/// Gets two locks, works on their values, and lets them go:
/// `let (pass, ()) = with_both(rt, lot, pass, 3, 1, now, |a, b| swap(a, b));`. The lock with the lower number is got
/// first and let go last, so no two threads that get two locks so wait for one another. Of both values the work may
/// take what the pass knows of them (`Finds`).
pub fn with_both<
    V: Keeps + Send,
    O,
    N: LotName<V> + Send,
    C: Tally + Send,
    T: Wait,
    F: FnOnce(&mut V, &mut V) -> O,
>(
    rt: &T,
    lot: &Lot<V, N, C>,
    pass: Pass<V, N>,
    first: usize,
    second: usize,
    moment: Moment,
    work: F,
) -> (Pass<V, N>, O)
    requires keys { (first < lot.now.locks) × (second < lot.now.locks) × (second ≢ first) }
    requires not_owned { (¬ Owns pass first) × ¬ Owns pass second }
    requires above { AllBelow V.above (keys_of pass) first × AllBelow V.above (keys_of pass) second }
    requires rises { (first < second → V.above first second) × (second < first → V.above second first) }
    requires callable { (v w : _) → V.keeps first v.now → V.keeps second w.now → Finds V.Keeps pass first v.now
        → Finds V.Keeps pass second w.now → F.pre work v w }
    requires keeps { (v w o x y : _) → V.keeps first v.now → V.keeps second w.now → Finds V.Keeps pass first v.now
        → Finds V.Keeps pass second w.now → F.post work v w o x y
        → MayBecome V.Keeps first pass.thread v.now x.now × MayBecome V.Keeps second pass.thread w.now y.now }
    ensures visits { (v : _) × (w : _) × (x : _) × (y : _) × F.post work v w result.1 x y
        × VisitsBoth V.Keeps pass first second v.now w.now x.now y.now result.0 }
    ensures made { Adds pass.made (BothTrace pass.thread first second moment.now) result.0.made }
    ensures shape { HasShape lot.now result.0 }
    ensures free { OwnsNone pass → OwnsNone result.0 }
{
    let apart = first != second;
    prove!(apart);
    if first < second {
        with_two(rt, lot, pass, first, second, moment, work)
    } else {
        let turned = |b: &mut V, a: &mut V| -> O
            requires { (v w : _) → v.now ≡ a.old → w.now ≡ b.old → F.pre work v w }
            ensures { (v : _) × (w : _) × (x : _) × (y : _) × (v.now ≡ a.old) × (w.now ≡ b.old) × (x.now ≡ a.new)
                × (y.now ≡ b.new) × F.post work v w result x y }
        { turned_call(work, b, a) };
        with_two(rt, lot, pass, second, first, moment, turned)
    }
}

/// Works on the second value and the first.
fn turned_call<V, O, F: FnOnce(&mut V, &mut V) -> O>(work: F, b: &mut V, a: &mut V) -> O
    requires { (v w : _) → v.now ≡ a.old → w.now ≡ b.old → F.pre work v w }
    ensures { (v : _) × (w : _) × (x : _) × (y : _) × (v.now ≡ a.old) × (w.now ≡ b.old) × (x.now ≡ a.new)
        × (y.now ≡ b.new) × F.post work v w result x y }
{
    work(a, b)
}

/// The same, where the first is got first.
fn with_two<
    V: Keeps + Send,
    O,
    N: LotName<V> + Send,
    C: Tally + Send,
    T: Wait,
    F: FnOnce(&mut V, &mut V) -> O,
>(
    rt: &T,
    lot: &Lot<V, N, C>,
    pass: Pass<V, N>,
    first: usize,
    second: usize,
    moment: Moment,
    work: F,
) -> (Pass<V, N>, O)
    requires keys { (first < lot.now.locks) × (second < lot.now.locks) × (second ≢ first) }
    requires not_owned { (¬ Owns pass first) × ¬ Owns pass second }
    requires above { AllBelow V.above (keys_of pass) first × AllBelow V.above (keys_of pass) second }
    requires rises { V.above first second }
    requires callable { (v w : _) → V.keeps first v.now → V.keeps second w.now → Finds V.Keeps pass first v.now
        → Finds V.Keeps pass second w.now → F.pre work v w }
    requires keeps { (v w o x y : _) → V.keeps first v.now → V.keeps second w.now → Finds V.Keeps pass first v.now
        → Finds V.Keeps pass second w.now → F.post work v w o x y
        → MayBecome V.Keeps first pass.thread v.now x.now × MayBecome V.Keeps second pass.thread w.now y.now }
    ensures visits { (v : _) × (w : _) × (x : _) × (y : _) × F.post work v w result.1 x y
        × VisitsBoth V.Keeps pass first second v.now w.now x.now y.now result.0 }
    ensures made { Adds pass.made (NestedTrace pass.thread first second moment.now) result.0.made }
    ensures shape { HasShape lot.now result.0 }
    ensures free { OwnsNone pass → OwnsNone result.0 }
{
    let (pass, mut one) = lot.lock(rt, pass, first);
    let (pass, mut two) = lot.lock(rt, pass, second);
    let outcome = work(one.value_mut(), two.value_mut());
    let (pass, _) = lot.unlock(rt, pass, two, moment);
    let (pass, _) = lot.unlock(rt, pass, one, moment);
    (pass, outcome)
}
