//! What the lock rule and its history mean: laws, each the contract of a function that does nothing. Those of the
//! history itself, which are the same for every kind, are lot_rights' (`lot_rights::laws`).
ghost use Rattle.std.specs.Prelude.{◌≡◌, ℕ, List, Option};
ghost use Rattle.atomic_table.specs.Table.{State};
ghost use Rattle.lot_core.specs.Model.{opening};
ghost use Rattle.lot_events.specs.declared.events.Event.{Event};
ghost use Rattle.lot_events.specs.declared.events.Seen.{Seen};
ghost use Rattle.lot_core.specs.Parts.{LockPart, LockStep, lock_part};
ghost use Rattle.lot_core.specs.Sound.{IsSoundLockPart};
ghost use Rattle.lot_rights.specs.History.{ModelRun};
ghost use Rattle.lot_rights.specs.declared.views.Right.{Right};
ghost use Rattle.lot_rights.specs.Rule.{Ruled};
ghost use Rattle.lot_words.specs.declared.views.LockPassView.{LockPassView};
ghost use Rattle.lot_words.specs.declared.views.LockRootView.{LockRootView};
ghost use Rattle.lot_words.specs.declared.views.Size.{Size};
ghost use Rattle.lot_words.specs.Rule.{opening_part, meaning};
ghost use Rattle.lot_words.specs.Values.{FoundOk, Owns};
ghost use Rattle.lot_words.specs.Calls.{owning, woken};
ghost use Rattle.lot_words.specs.Headline.{Headline};

use crate::keeps::Keeps;

/// At every moment the headline holds of one world: what keeps the rule keeps all of it.
pub fn the_rule_is_the_headline<V: Keeps>()
    ensures { (size : Size) (xs : List V) (s : State (Option V) (List (Right (LockPassView V) LockRootView)))
        → Ruled (meaning V.Keeps size xs) s → Headline V.Keeps size xs s }
{}

/// Every run of the lock part from the opening leads to a sound part: one owner of each lock at most, sleepers are
/// marked, someone is trying, one line each and once, of threads. So does the one that `close` tells of.
pub fn every_run_is_sound()
    ensures { (size : Size) (events : List (Event × Seen)) (part : LockPart)
        → ModelRun (LockStep size.threads size.locks) opening_part events part → IsSoundLockPart size.threads part }
{}

/// Who gets a lock holds it: its value lies in its slot, and the pass has seen it. So what `take`, `try_take`,
/// `take_free` and `collect` tell of a pass says so, of any key of the table.
pub fn who_gets_a_lock_owns_it<V: Keeps>()
    ensures { (l t : ℕ) (p : LockPassView V) (x : V) → FoundOk V.Keeps l t p x
        → Owns (owning p l x) l x × Owns (woken (owning p l x)) l x }
{}

/// The history begins at the lock part of the model's opening state.
pub fn the_history_begins_at_the_opening()
    ensures { (threads locks conds : ℕ) → opening_part ≡ lock_part (opening threads locks conds) }
{}
