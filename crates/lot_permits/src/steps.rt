//! The steps on a semaphore's word by which a permit is given back. A callback of the parking lot makes one of them,
//! while its bucket is locked.
ghost use Rattle.std.specs.Prelude.{◌≡◌, ℕ, Bool, [], MatchBool};
ghost use Rattle.lot_park.specs.Parking.{Tells};
ghost use Rattle.lot_scheme.specs.Roots.{OwesFirst};
ghost use Rattle.lot_permits.specs.declared.permit.Freed.{Freed};
ghost use Rattle.lot_permits.specs.declared.permit.Freed.TheVariants.{Quiet};

use crate::permit::Freed;
use lot_park::UnparkResult;
use lot_scheme::{LotName, LotScheme, NamedPass, NamedRoot, Tally};
use lot_seeking::Sought;
use lot_whole::Keeps;

/// Names permits, where a scheme says how its threads seek them.
pub struct Sems;

/// A callback hands its pass and its root to one of these. Written for every scheme, since the passes and roots of a
/// lot can't be named in a closure's signature.
pub trait SemSteps: Sought<Sems> {
    ghost use Rattle.std.specs.Prelude.{ℕ, Bool};
    ghost use Rattle.lot_permits.specs.declared.permit.Freed.{Freed};

    /// The pass has a permit of the key, and may give it back.
    ghost may_give: { Self.Pass → ℕ → Type 0 };

    /// The pass before, and the pass that has given a permit of the key back, of which this became.
    ghost gives: { Self.Pass → ℕ → Freed → Self.Pass → Type 0 };

    /// The same, where the permit was given back with the key's bucket locked; and whether the semaphore stays marked
    /// as parked.
    ghost passes: { Self.Pass → ℕ → Bool → Freed → Self.Pass → Type 0 };

    /// A look and one compare-exchange: the permit is given back where nobody is parked. Else the thread still has it,
    /// and what is made of it then is made of the pass before.
    fn free(&self, pass: Self::Pass, key: usize) -> (Self::Pass, bool)
        requires has { Self.has self.now key }
        requires may { may_give pass key }
        ensures { MatchBool result.1 (gives pass key Quiet result.0)
            (may_give result.0 key × ((more : Bool) (became : Freed) (after : Self.Pass)
            → passes result.0 key more became after → gives pass key became after)) };

    /// The callback of a slow release: the permit goes back, and the thread is taken from the line of which the parking
    /// lot tells. Where nobody was in the line, the parked bit is cleared; it stays where more may wait.
    fn give_on(
        &self,
        pass: Self::Pass,
        root: Self::Root,
        key: usize,
        told: UnparkResult,
    ) -> (Self::Pass, Self::Root, Freed)
        requires key { (Self.Root.view root).key ≡ key }
        requires may { may_give pass (Self.Root.view root).key }
        requires clear { (Self.Root.view root).owes ≡ [] }
        requires told { (now : ℕ) × Tells (Self.Root.view root).line now told }
        ensures passes { passes pass (Self.Root.view root).key told.more result.2 result.0 }
        ensures takes { OwesFirst Self.Root.view root told.thread 0 result.1 };
}

impl<V: Keeps + Send, N: LotName<V> + Send, C: Tally + Send> SemSteps for LotScheme<V, N, C> {
    ghost use Rattle.lot_permits.specs.Freed.{MayGivePermit, GivesPermit, PassesPermit};

    ghost may_give = { MayGivePermit N.first_sem };

    ghost gives = { GivesPermit };

    ghost passes = { PassesPermit };

    #[inline(always)]
    fn free(&self, pass: NamedPass<V, N>, key: usize) -> (NamedPass<V, N>, bool) {
        self.free_permit(pass, key)
    }

    fn give_on(
        &self,
        pass: NamedPass<V, N>,
        root: NamedRoot<V, N, C>,
        key: usize,
        told: UnparkResult,
    ) -> (NamedPass<V, N>, NamedRoot<V, N, C>, Freed) {
        let (pass, root) = self.pass_permit(pass, root, key, told.thread, told.more);
        match told.thread {
            Some(_) => (pass, root, Freed::Woke),
            None => {
                let (pass, root) = self.clear(pass, root, key);
                (pass, root, Freed::Nobody)
            }
        }
    }
}
