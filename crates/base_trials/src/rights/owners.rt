//! What the words of locks promise is enough for who calls them: who gets a lock of any table owns it, as follows from
//! the lock's number alone, and the history that `close` tells of leaves a sound part of the model.
ghost use Rattle.std.specs.Prelude.{true, false, ◌≡◌, ℕ, ◌<◌, vec_len, MatchBool, MatchOption, Some};
ghost use Rattle.std.specs.List.{All, Any};
ghost use Rattle.lot_core.specs.Sound.{IsSoundLockPart};
ghost use Rattle.lot_rights.specs.declared.views.Access.{Access};
ghost use Rattle.lot_rights.specs.Shown.{PassShown, RootShown};
ghost use Rattle.lot_rights.specs.Steps.{Notes};
ghost use Rattle.lot_words.specs.declared.views.LockPassView.{LockPassView};
ghost use Rattle.lot_words.specs.declared.views.LockRootView.{LockRootView};
ghost use Rattle.lot_words.specs.Values.{Owns};
ghost use Rattle.lot_words.specs.Calls.{Aims, wanting, GetsBy, FoundNone, Collected};
ghost use Rattle.lot_words.specs.Closing.{HoldsNone, IsToldTo};

use lot_words::laws::{every_run_is_sound, who_gets_a_lock_owns_it};
use lot_words::{Keeps, LockPass, LockRoot, LockWords};

/// Takes a lock of a table of any size: who gets it owns it.
pub(super) fn take_any<V: Keeps>(
    words: &LockWords<V>,
    pass: LockPass<V>,
    key: usize,
) -> (LockPass<V>, bool)
    requires table { pass.table ≡ words.now.table }
    requires key { key < words.now.size.locks }
    requires calm { (pass.own.asleep ≡ false) × Aims pass.own key }
    ensures table { result.0.table ≡ pass.table }
    ensures event { (gets wishes : Access)
        × MatchBool result.1 (GetsBy V.Keeps pass key gets result.0)
        (Notes pass (wanting pass.own key) wishes result.0) }
    ensures owner { result.1 ≡ true → (x : V) × Owns result.0.own key x }
{
    who_gets_a_lock_owns_it::<V>();
    words.take(pass, key)
}

/// Looks for a letter: a thread to which the lock that it wants was handed owns it.
pub(super) fn collect_any<V: Keeps>(
    words: &LockWords<V>,
    pass: LockPass<V>,
) -> (LockPass<V>, Option<u32>)
    requires { pass.table ≡ words.now.table }
    ensures table { result.0.table ≡ pass.table }
    ensures letter { MatchOption result.1 (FoundNone pass result.0)
        (λ token. Collected V.Keeps pass token result.0) }
    ensures owner { (l : ℕ) → pass.own.aim ≡ Some l → result.1 ≡ Some 1 → (x : V) × Owns result.0.own l x }
{
    who_gets_a_lock_owns_it::<V>();
    words.collect(pass)
}

/// Ends a table: the history that is told of leaves a sound part of the model.
pub(super) fn close_soundly<V: Keeps>(
    words: LockWords<V>,
    passes: Vec<LockPass<V>>,
    roots: Vec<LockRoot<V>>,
) -> Vec<V>
    requires table { All (λ (p : PassShown (LockPassView V)). p.table ≡ words.table) passes.items
        × All (λ (q : RootShown LockRootView). q.table ≡ words.table) roots.items }
    requires idle { All HoldsNone passes.items }
    requires passes { (t : ℕ) → t < words.size.threads
        → Any (λ (p : PassShown (LockPassView V)). p.thread ≡ t) passes.items }
    requires roots { (l : ℕ) → l < words.size.locks → Any (λ (q : RootShown LockRootView). q.key ≡ l) roots.items }
    ensures len { vec_len result ≡ words.size.locks }
    ensures sound { (told : IsToldTo words.size passes.items roots.items)
        × IsSoundLockPart words.size.threads told.recounted.part }
{
    every_run_is_sound();
    words.close(passes, roots)
}
