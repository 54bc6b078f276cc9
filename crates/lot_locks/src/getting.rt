//! Getting a lock, as WTF's `Lock::lock` does: one compare-exchange, a few yields, and then the line.
ghost use Rattle.std.specs.Prelude.{◌≡◌, ◌≢◌, ◌<◌, ◌⊎◌, true, false, [], ◌∷◌, MatchBool};
ghost use Rattle.lot_rights.specs.declared.views.Access.TheVariants.{Finds};
ghost use Rattle.lot_whole.specs.Standing.{IsIdle, MayWant};
ghost use Rattle.lot_scheme.specs.Standing.{adding};
ghost use Rattle.lot_scheme.specs.Traces.{TryTrace};
ghost use Rattle.lot_locks.specs.Standing.{IsAwakeFor, IsTryingFor, IsOwner, GetsBy, MissesBy, HasFound, letters_in};

use crate::steps::HANDOFF;
use lot_park::{BeforeSleep, ParkingLot, Scheme, Token};
use lot_scheme::{LotName, LotScheme, NamedPass, NamedRoot, Tally};
use lot_seeking::{Look, Seeking, Sought, get_or_park};
use lot_whole::Keeps;
use lot_words::{HELD, HELD_AND_PARKED, PARKED, UNHELD};
use std::sync::Wait;

/// What is sought: a lock. It names this for the parking lot, and has no value.
pub struct Locks;

/// Whether somebody owns the lock at some moment of this call.
pub fn is_held<V: Keeps, N: LotName<V>, C: Tally>(scheme: &LotScheme<V, N, C>, key: usize) -> bool
    requires { key < N.locks }
{
    scheme.lock_bits(key) & HELD != 0
}

/// Whether the lock is marked as parked at some moment of this call.
pub fn is_parked<V: Keeps, N: LotName<V>, C: Tally>(scheme: &LotScheme<V, N, C>, key: usize) -> bool
    requires { key < N.locks }
{
    scheme.lock_bits(key) & PARKED != 0
}

/// Gets the lock where nobody owns it and nobody is marked as parked. Else the pass stands as before, and has looked.
/// The answer is the word as it was: 0 where the lock is got.
#[inline(always)]
pub fn get_free<V: Keeps, N: LotName<V>, C: Tally>(
    scheme: &LotScheme<V, N, C>,
    pass: NamedPass<V, N>,
    key: usize,
) -> (NamedPass<V, N>, u64)
    requires key { key < N.locks }
    requires may { MayWant V.above pass.own key }
    ensures got { result.1 ≡ 0 → IsOwner V.Keeps pass key result.0 }
    ensures missed { result.1 ≢ 0 → IsAwakeFor V.above N.locks pass key result.0 }
    ensures found { result.1 ≢ 0 → result.0 ≡ adding pass (Finds pass.thread key result.1 ∷ []) }
    ensures awake { letters_in result.0.did ≡ letters_in pass.did }
{
    scheme.take_free(pass, key)
}

/// Gets the lock where nobody owns it: at once where nobody is marked as parked, else past the sleepers. Else the pass
/// stands as before.
#[inline(always)]
pub fn try_get<V: Keeps, N: LotName<V>, C: Tally>(
    scheme: &LotScheme<V, N, C>,
    pass: NamedPass<V, N>,
    key: usize,
) -> (NamedPass<V, N>, bool)
    requires key { key < N.locks }
    requires idle { IsIdle pass.own }
    ensures { MatchBool result.1 (GetsBy V.Keeps (TryTrace pass.thread key true) pass key result.0)
        (MissesBy (TryTrace pass.thread key false) pass result.0) }
{
    let (pass, found) = scheme.take_free(pass, key);
    if found == UNHELD {
        return (pass, true);
    }
    scheme.try_take(pass, key)
}

/// Takes the lock where nobody owns it, and wants it otherwise.
fn take<V: Keeps, N: LotName<V>, C: Tally>(
    scheme: &LotScheme<V, N, C>,
    pass: NamedPass<V, N>,
    key: usize,
) -> (NamedPass<V, N>, bool)
    requires key { key < N.locks }
    requires may { MayWant V.above pass.own key }
    ensures far { MatchBool result.1 (IsOwner V.Keeps pass key result.0) (IsTryingFor V.above N.locks pass key result.0) }
    ensures awake { letters_in result.0.did ≡ letters_in pass.did }
{
    scheme.take(pass, key)
}

impl<V: Keeps + Send, N: LotName<V> + Send, C: Tally + Send> Sought<Locks> for LotScheme<V, N, C> {
    ghost use Rattle.std.specs.Prelude.{◌<◌};
    ghost use Rattle.lot_locks.specs.Standing.{IsAsleepFor, Seeks, HasMarked, FindsAnother, IsTurnedBack};
    ghost use Rattle.lot_locks.specs.Standing.{letters_in};

    ghost has = { λ s key. key < N.locks };

    ghost seeks = { Seeks V.Keeps N.locks };

    ghost sleeps = { IsAsleepFor V.above N.locks };

    ghost changed = { FindsAnother };

    ghost marked = { HasMarked };

    ghost refused = { IsTurnedBack };

    ghost woken = { λ p. letters_in p.did };

    fn look_at(&self, key: usize) -> Look {
        let bits = self.lock_bits(key);
        if bits & HELD == 0 {
            Look::Free
        } else if bits & PARKED == 0 {
            Look::Taken
        } else {
            Look::Parked
        }
    }

    fn take(&self, pass: NamedPass<V, N>, key: usize) -> (NamedPass<V, N>, bool) {
        take(self, pass, key)
    }

    fn take_free(&self, pass: NamedPass<V, N>, key: usize) -> (NamedPass<V, N>, bool) {
        let (pass, found) = get_free(self, pass, key);
        (pass, found == UNHELD)
    }

    #[tactic(auto, using(crate::proofs::Seeking::line_laws))]
    fn line_up(
        &self,
        pass: NamedPass<V, N>,
        key: usize,
        is_marked: bool,
    ) -> (NamedPass<V, N>, Seeking) {
        let (pass, got) = take(self, pass, key);
        if got {
            return (pass, Seeking::Got);
        }
        if is_marked {
            return (pass, Seeking::Parks);
        }
        let (pass, marked) = self.mark(pass, key);
        let now = if marked {
            Seeking::Parks
        } else {
            Seeking::Waits
        };
        (pass, now)
    }

    fn queue(
        &self,
        pass: NamedPass<V, N>,
        root: NamedRoot<V, N, C>,
        key: usize,
    ) -> (NamedPass<V, N>, NamedRoot<V, N, C>, bool) {
        self.park(pass, root, key)
    }

    fn is_handed(token: Token) -> bool {
        token == HANDOFF
    }
}

/// Gets the lock, waiting for it where somebody owns it. Before each sleep it does what `before` says: where the thread
/// found a letter, that has run.
#[tactic(auto, using(crate::proofs::Seeking::may_take, crate::proofs::Seeking::owner_on))]
#[inline(always)]
pub fn get<V: Keeps + Send, N: LotName<V> + Send, C: Tally + Send, R: Wait, B: BeforeSleep>(
    rt: &R,
    parking: &ParkingLot<LotScheme<V, N, C>>,
    pass: NamedPass<V, N>,
    key: usize,
    before: &B,
) -> NamedPass<V, N>
    requires key { (key < N.locks) × (key < parking.now.keys) }
    requires thread { pass.thread < parking.now.threads }
    requires may { MayWant V.above pass.own key }
    ensures owner { IsOwner V.Keeps pass key result }
    ensures ran { (letters_in result.did ≡ letters_in pass.did) ⊎ B.ran before.now }
{
    let (pass, found) = get_free(parking.scheme(), pass, key);
    if found == UNHELD {
        pass
    } else {
        get_slowly(rt, parking, pass, key, found, before)
    }
}

/// Gets a lock whose word was another than 0: the one that the missed exchange found, which is the first look at it.
/// Where the lock was held and parked it lines up at once. Else it goes on as where the lock is taken: so where others
/// seek too, it is left to its owner meanwhile. Before each sleep it does what `before` says.
#[cold]
#[inline(never)]
pub fn get_slowly<V: Keeps + Send, N: LotName<V> + Send, C: Tally + Send, R: Wait, B: BeforeSleep>(
    rt: &R,
    parking: &ParkingLot<LotScheme<V, N, C>>,
    pass: NamedPass<V, N>,
    key: usize,
    found: u64,
    before: &B,
) -> NamedPass<V, N>
    requires key { (key < N.locks) × (key < parking.now.keys) }
    requires thread { pass.thread < parking.now.threads }
    requires may { MayWant V.above pass.own key }
    requires found { HasFound pass key found }
    ensures owner { IsOwner V.Keeps pass key result }
    ensures ran { (letters_in result.did ≡ letters_in pass.did) ⊎ B.ran before.now }
{
    let first = if found == HELD_AND_PARKED {
        Look::Parked
    } else {
        Look::Taken
    };
    get_or_park::<LotScheme<V, N, C>, Locks, R, B>(rt, parking, pass, key, first, before)
}
