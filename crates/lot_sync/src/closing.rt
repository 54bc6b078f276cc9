//! Closing a lot: the values come back, with what the passes counted and the one run that they made.
ghost use Rattle.std.specs.Prelude.{◌≡◌, ℕ, ◌+◌, ◌<◌, ◌≤◌, length, map, vec_len, vec_capacity};
ghost use Rattle.std.specs.List.{All, Any};
ghost use Rattle.lot_rights.specs.Shown.{PassShown, RootShown};
ghost use Rattle.lot_whole.specs.declared.views.LotPassView.{LotPassView};
ghost use Rattle.lot_whole.specs.declared.views.LotRootView.{LotRootView};
ghost use Rattle.lot_waits.specs.Counts.{counts_shown};
ghost use Rattle.lot_waits.specs.Ledger.{AreBothSums, AreZeros};
ghost use Rattle.lot_sync.specs.Lot.{PassView, OwnsNone, IsLedgerOf};
ghost use Rattle.lot_sync.specs.Passes.{pass_view_shown, IsFree};
ghost use Rattle.lot_sync.specs.Values.{GoesOnTo, AreSeen};
ghost use Rattle.lot_sync.specs.Closing.{HasOneRun, AreCounts, AreCountedWith};

use crate::lot::Lot;
use crate::pass::Pass;
use lot_scheme::{LotName, NamedRoot, Tally};
use lot_waits::{Ledger, Tallies, add_up, ledger_of};
use lot_whole::{LotLyingRoot, LotPass};
use lot_words::Keeps;
use std::sync::Wait;

impl<V: Keeps + Send, N: LotName<V> + Send, C: Tally + Send> Lot<V, N, C> {
    /// Ends the lot, with all its passes. The answer has the value of each lock, in order, as some pass saw it last,
    /// and what the passes counted for each condition. One run of the whole model was made with these passes, from the
    /// opening to a sound state in which no lock is held and nobody waits.
    ///
    /// Passes that are in are had by `take_left`.
    pub fn close<R: Wait>(self, rt: &R, passes: Vec<Pass<V, N>>) -> (Vec<V>, Ledger)
        requires count { vec_len passes ≡ self.threads }
        requires all { (t : ℕ) → t < self.threads → Any (λ (p : PassView V). p.thread ≡ t) passes.items }
        requires free { All OwnsNone passes.items }
        ensures count { vec_len result.0 ≡ self.locks }
        ensures values { All (GoesOnTo V.Keeps result.0.items) passes.items }
        ensures seen { AreSeen result.0.items passes.items }
        ensures ledger { IsLedgerOf self passes.items result.1.called.items result.1.woken.items }
        ensures history { HasOneRun N.LotName passes.items }
    {
        let (values, ledger, _counts) = self.end(rt, passes);
        (values, ledger)
    }

    /// `close`, and what was counted with each key's root, in order.
    pub(crate) fn end<R: Wait>(self, rt: &R, passes: Vec<Pass<V, N>>) -> (Vec<V>, Ledger, Vec<C>)
        requires count { vec_len passes ≡ self.threads }
        requires all { (t : ℕ) → t < self.threads → Any (λ (p : PassView V). p.thread ≡ t) passes.items }
        requires free { All OwnsNone passes.items }
        ensures count { vec_len result.0 ≡ self.locks }
        ensures values { All (GoesOnTo V.Keeps result.0.items) passes.items }
        ensures seen { AreSeen result.0.items passes.items }
        ensures ledger { IsLedgerOf self passes.items result.1.called.items result.1.woken.items }
        ensures history { HasOneRun N.LotName passes.items }
        ensures counted { (run : HasOneRun N.LotName passes.items)
            × AreCounts C.counts run.told.recounted.log run.roots result.2.items }
        ensures keys { vec_len result.2 ≡ self.locks + self.conds + self.sems }
    {
        let Lot {
            parking,
            pool,
            threads: _,
            locks: _,
            conds: _,
            sems: _,
        } = self;
        let room = pool.into_inner().into_room(rt);
        let (mut rights, mut roots, mut named, mut counts, mut sums) = room.apart();
        let scheme = parking.close(rt, &mut named);
        copy_counts(&named, &mut counts);
        gather(passes, &mut rights, &mut sums);
        unname(named, &mut roots);
        let values = scheme.into_words().close(rights, roots);
        (values, ledger_of(sums), counts)
    }
}

/// Copies what was counted with each root, in order.
fn copy_counts<V: Keeps + Send, N: LotName<V> + Send, C: Tally + Send>(
    named: &Vec<NamedRoot<V, N, C>>,
    counts: &mut Vec<C>,
)
    requires room { (vec_len counts.old ≡ 0) × (vec_len named.now ≤ vec_capacity counts.old) }
    ensures long { vec_len counts.new ≡ vec_len named.now }
    ensures counted { AreCountedWith C.counts named.now.items counts.new.items }
{
    for place in 0..named.len() {
        counts.push_reserved(named[place].tally());
    }
}

/// Takes the passes apart, in order, and adds up what they counted.
pub(crate) fn gather<V: Keeps + Send, N: LotName<V> + Send>(
    mut passes: Vec<Pass<V, N>>,
    rights: &mut Vec<LotPass<V>>,
    sums: &mut Tallies,
)
    requires free { All OwnsNone passes.items }
    requires room { (vec_len rights.old ≡ 0) × (vec_len passes ≤ vec_capacity rights.old) }
    requires zeros { AreZeros N.conds sums.old }
    ensures same { map pass_view_shown rights.new.items ≡ passes.items }
    ensures free { All (IsFree N.opening.locks) rights.new.items }
    ensures tallied { AreBothSums N.locks N.conds (map counts_shown rights.new.items) sums.new }
{
    while let Some(pass) = passes.pop() {
        let (right, tallies) = pass.apart();
        add_up(sums, &*tallies);
        rights.push_reserved(right.into_pass());
    }
    passes.destroy_empty();
    rights.reverse();
}

/// Takes the names off the roots, in order.
pub(crate) fn unname<V: Keeps + Send, N: LotName<V> + Send, C: Tally + Send>(
    mut named: Vec<NamedRoot<V, N, C>>,
    roots: &mut Vec<LotLyingRoot<V>>,
)
    requires room { (vec_len roots.old ≡ 0) × (vec_len named ≤ vec_capacity roots.old) }
    ensures same { roots.new.items ≡ named.items }
    ensures own { All (λ (r : RootShown LotRootView). r.table ≡ N.opening.locks) roots.new.items }
{
    while let Some(root) = named.pop() {
        roots.push_reserved(root.into_root());
    }
    named.destroy_empty();
    roots.reverse();
}
