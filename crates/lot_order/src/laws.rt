//! The laws: functions that do nothing, whose contracts are the theorems.
ghost use Rattle.std.specs.Prelude.{◌≡◌, ◌⊎◌, ℕ, List};
ghost use Rattle.lot_events.specs.declared.events.Event.{Event};
ghost use Rattle.lot_events.specs.declared.events.Point.TheVariants.{Rest};
ghost use Rattle.lot_core.specs.Model.{StateView, opening_with};
ghost use Rattle.lot_core.specs.Steps.{Allowed, Run, after, after_all};
ghost use Rattle.lot_core.specs.Sound.{IsSound};
ghost use Rattle.lot_core.specs.WellFormed.{IsWellFormed};
ghost use Rattle.lot_order.specs.Order.{KeepsOrder, IsOrdered, OrderlyRun, Rises};
ghost use Rattle.lot_order.specs.Waiting.{GoesOn, SeeksInVain, HasNoCircle, AllComeTo, SomeoneGoesOn};

/// Stands for an order of keys: an `impl` says which keys lie above which, as
/// `ghost above = { λ j k. j < k };`.
pub trait KeyOrder {
    /// The key k lies above the key j: who has j may wait for k.
    ghost above: { ℕ → ℕ → Type 0 };
}

/// In a state that is in order no thread waits for itself, whatever others lie between. From each key that a thread
/// needs one comes, from who has it to what that one needs, to a key with which some thread goes on; or to one that a
/// thread has which waits to be notified, or a permit of a semaphore that was opened with none. Where whoever waits for
/// a notification keeps nothing, since no key may be kept with it, one comes to one of the other two.
pub fn ordered_states_go_on<O: KeyOrder>()
    ensures no_circle { (level : ℕ → ℕ) (s : StateView) → Rises O.above level → IsOrdered O.above s
        → HasNoCircle s }
    ensures goes_on { (level : ℕ → ℕ) (s : StateView) → Rises O.above level → IsSound s → IsWellFormed s
        → IsOrdered O.above s → SomeoneGoesOn O.above s }
    ensures nothing_kept { (level : ℕ → ℕ) (s : StateView) → Rises O.above level → IsSound s → IsWellFormed s
        → IsOrdered O.above s → ((t c l j : ℕ) → s.point t ≡ Rest c l → ¬ O.above j c)
        → AllComeTo s (λ u k. GoesOn s u k ⊎ SeeksInVain s u k) }
{}

/// An event that keeps the order leaves a state in order behind, and each opening is in order: so is each state of an
/// orderly run, and what `ordered_states_go_on` says holds of it.
pub fn orderly_runs_go_on<O: KeyOrder>()
    ensures opening { (threads locks conds : ℕ) (permits : List ℕ)
        → IsOrdered O.above (opening_with threads locks conds permits) }
    ensures event { (s : StateView) (e : Event) → IsOrdered O.above s → Allowed s e
        → KeepsOrder O.above s e → IsOrdered O.above (after s e) }
    ensures run { (threads locks conds : ℕ) (permits : List ℕ) (events : List Event)
        → OrderlyRun O.above (opening_with threads locks conds permits) events
        → Run (opening_with threads locks conds permits) events
        × IsOrdered O.above (after_all (opening_with threads locks conds permits) events) }
    ensures goes_on { (level : ℕ → ℕ) (threads locks conds : ℕ) (permits : List ℕ)
        (events : List Event) → Rises O.above level → OrderlyRun O.above (opening_with threads locks conds permits) events
        → SomeoneGoesOn O.above (after_all (opening_with threads locks conds permits) events) }
{}
