//! The root of a key under the name of its lot.
ghost use Rattle.std.specs.Prelude.{◌≡◌};
ghost use Rattle.lot_scheme.specs.Roots.{IsInItsKind};
ghost use Rattle.lot_scheme.specs.Counts.{CountedWith, IsUnused};

use crate::contention::{Silent, Tally};
use crate::name::LotName;
use lot_park::Root;
use lot_rights::Named;
use lot_whole::{Keeps, LotLyingRoot, LotRoot};
use std::marker::Model;

/// The root of a key of any kind, as the buckets see it, with what is counted of the key. Its number tells its kind.
/// Where nothing is counted it takes no bytes: whoever takes it out of its bucket knows the key.
pub struct NamedRoot<V: Keeps, N: LotName<V>, C: Tally = Silent> {
    named: Named<LotLyingRoot<V>, N>,
    tally: C,
}

impl<V: Keeps, N: LotName<V>, C: Tally> Model for NamedRoot<V, N, C> {
    ghost use Rattle.std.specs.Prelude.{◌≡◌};
    ghost use Rattle.lot_rights.specs.Shown.{RootShown};
    ghost use Rattle.lot_whole.specs.declared.views.LotRootView.{LotRootView};
    ghost use Rattle.lot_scheme.specs.Roots.{IsInItsKind};
    ghost use Rattle.lot_scheme.specs.Counts.{CountedWith};

    ghost Value = { RootShown LotRootView };

    ghost view = { λ s. s.named };

    ghost invariant = { λ s. (s.named.table ≡ N.opening.locks)
        × IsInItsKind N.locks N.first_sem s.named.key s.named.own
        × CountedWith (C.counts s.tally) s.named };
}

impl<V: Keeps + Send, N: LotName<V> + Send, C: Tally + Send> Root for NamedRoot<V, N, C> {
    ghost use Rattle.lot_scheme.specs.Roots.{root_view};

    ghost view = { root_view };
}

impl<V: Keeps, N: LotName<V>, C: Tally> NamedRoot<V, N, C> {
    /// The root of a key on which nobody has parked yet.
    pub fn new(root: LotLyingRoot<V>) -> NamedRoot<V, N, C>
        requires named { root.table ≡ N.opening.locks }
        requires kind { IsInItsKind N.locks N.first_sem root.key root.own }
        requires unused { IsUnused root }
        ensures { result ≡ root }
    {
        NamedRoot::counted(root, C::none())
    }

    #[inline(always)]
    pub(crate) fn counted(root: LotLyingRoot<V>, tally: C) -> NamedRoot<V, N, C>
        requires named { root.table ≡ N.opening.locks }
        requires kind { IsInItsKind N.locks N.first_sem root.key root.own }
        requires counted { CountedWith (C.counts tally) root }
        ensures { result ≡ root }
    {
        NamedRoot {
            named: Named::new(root),
            tally,
        }
    }

    /// The root, and what was counted with it.
    #[inline(always)]
    pub fn apart(self) -> (LotLyingRoot<V>, C)
        ensures same { result.0 ≡ self }
        ensures named { result.0.table ≡ N.opening.locks }
        ensures kind { IsInItsKind N.locks N.first_sem result.0.key result.0.own }
        ensures counted { CountedWith (C.counts result.1) result.0 }
    {
        let NamedRoot { named, tally } = self;
        (named.into_inner(), tally)
    }

    /// What was counted with it.
    pub fn tally(&self) -> C
        ensures { CountedWith (C.counts result) self.now }
    {
        self.tally
    }

    pub fn into_root(self) -> LotLyingRoot<V>
        ensures same { result ≡ self }
        ensures named { result.table ≡ N.opening.locks }
        ensures kind { IsInItsKind N.locks N.first_sem result.key result.own }
    {
        self.apart().0
    }

    /// The root in hand, for an access to the word of its key, and what was counted with it.
    #[inline(always)]
    pub(crate) fn take_up(self, key: usize) -> (LotRoot<V>, C)
        requires { key ≡ self.key }
        ensures same { result.0 ≡ self }
        ensures named { result.0.table ≡ N.opening.locks }
        ensures kind { IsInItsKind N.locks N.first_sem result.0.key result.0.own }
        ensures counted { CountedWith (C.counts result.1) result.0 }
    {
        let (root, tally) = self.apart();
        (root.take_up(key), tally)
    }

    /// The root as it lies in its bucket.
    #[inline(always)]
    pub(crate) fn lay_down(root: LotRoot<V>, tally: C) -> NamedRoot<V, N, C>
        requires named { root.table ≡ N.opening.locks }
        requires kind { IsInItsKind N.locks N.first_sem root.key root.own }
        requires counted { CountedWith (C.counts tally) root }
        ensures { result ≡ root }
    {
        NamedRoot::counted(root.lay_down(), tally)
    }
}
