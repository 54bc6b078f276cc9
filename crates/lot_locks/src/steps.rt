//! The steps on a lock's word by which it is let go. A callback of the parking lot makes one of them, while its bucket
//! is locked.
ghost use Rattle.std.specs.Prelude.{◌≡◌, ℕ, Bool, [], MatchBool};
ghost use Rattle.lot_locks.specs.Released.{HandsOver};
ghost use Rattle.lot_locks.specs.declared.released.Released.{Released};
ghost use Rattle.lot_locks.specs.declared.released.Released.TheVariants.{Quiet};
ghost use Rattle.lot_park.specs.Parking.{Tells};

use crate::getting::Locks;
use crate::released::Released;
use lot_park::{Token, UnparkResult};
use lot_scheme::{LotName, LotScheme, NamedPass, NamedRoot, Tally};
use lot_seeking::Sought;
use lot_whole::Keeps;

/// The token of a direct handoff: whoever finds it owns the lock already.
pub(crate) const HANDOFF: Token = Token(1);

/// The token of a barging opportunity: whoever finds it tries again.
pub(crate) const BARGING: Token = Token(0);

/// A callback hands its pass and its root to one of these. Written for every scheme, since the passes and roots of a
/// lot can't be named in a closure's signature.
pub trait LockSteps: Sought<Locks> {
    ghost use Rattle.std.specs.Prelude.{ℕ, Bool};
    ghost use Rattle.lot_locks.specs.declared.released.Released.{Released};

    /// The pass owns the lock of the key, which it found parked, and whose value lies in its slot.
    ghost may_pass: { Self.Pass → ℕ → Type 0 };

    /// The pass owns the lock of the key, whose value lies in its slot, and may let it go.
    ghost may_let_go: { Self.Pass → ℕ → Type 0 };

    /// The pass before, and the pass that has let the lock of the key go, of which this became.
    ghost lets_go: { Self.Pass → ℕ → Released → Self.Pass → Type 0 };

    /// The same, where the pass before had found the lock parked; and whether it stays marked as parked.
    ghost passes_on: { Self.Pass → ℕ → Bool → Released → Self.Pass → Type 0 };

    /// One compare-exchange: the lock is let go where nobody is parked. Else it is still owned, and who passes it on
    /// then has let it go, as the pass stood before.
    fn free(&self, pass: Self::Pass, key: usize) -> (Self::Pass, bool)
        requires has { Self.has self.now key }
        requires may { may_let_go pass key }
        ensures thread { Self.thread result.0 ≡ Self.thread pass }
        ensures step { MatchBool result.1 (lets_go pass key Quiet result.0)
            (may_pass result.0 key × ((more : Bool) (became : Released) (after : Self.Pass)
            → passes_on result.0 key more became after → lets_go pass key became after)) };

    /// The callback of a slow unlock: the lock is handed to the sleeper that was taken where the release is fair, and
    /// left to whoever comes first otherwise. What it decides is what the unlock answers. The lock stays marked as
    /// parked where it is told that more may wait.
    fn hand_over(
        &self,
        pass: Self::Pass,
        root: Self::Root,
        key: usize,
        told: UnparkResult,
        fair: bool,
    ) -> (Self::Pass, Self::Root, Token, Released)
        requires key { (Self.Root.view root).key ≡ key }
        requires may { may_pass pass (Self.Root.view root).key }
        requires clear { (Self.Root.view root).owes ≡ [] }
        requires told { (now : ℕ) × Tells (Self.Root.view root).line now told }
        ensures thread { Self.thread result.0 ≡ Self.thread pass }
        ensures went { passes_on pass (Self.Root.view root).key told.more result.3 result.0 }
        ensures hands { HandsOver Self.Root.view root told fair result.1 result.3 result.2.0 };
}

impl<V: Keeps + Send, N: LotName<V> + Send, C: Tally + Send> LockSteps for LotScheme<V, N, C> {
    ghost use Rattle.lot_locks.specs.Standing.{MayFree, MayPass, LetsGo, PassesOn};

    ghost may_pass = { MayPass N.locks };

    ghost may_let_go = { MayFree };

    ghost lets_go = { LetsGo };

    ghost passes_on = { PassesOn };

    #[inline(always)]
    fn free(&self, pass: NamedPass<V, N>, key: usize) -> (NamedPass<V, N>, bool) {
        crate::releasing::free_unparked(self, pass, key)
    }

    fn hand_over(
        &self,
        pass: NamedPass<V, N>,
        root: NamedRoot<V, N, C>,
        key: usize,
        told: UnparkResult,
        fair: bool,
    ) -> (NamedPass<V, N>, NamedRoot<V, N, C>, Token, Released) {
        let hands = told.thread.is_some() && (fair || told.fair);
        let (pass, root) = self.pass_on(pass, root, key, told.thread, hands, told.more);
        let (token, released) = match told.thread {
            None => (BARGING, Released::Nobody),
            Some(_) if hands => (HANDOFF, Released::Handed),
            Some(_) => (BARGING, Released::Woke),
        };
        (pass, root, token, released)
    }
}
