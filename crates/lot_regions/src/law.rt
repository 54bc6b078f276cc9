//! What can't be where each thread keeps the watch: a function that does nothing, whose contract is the law.
ghost use Rattle.std.specs.Prelude.{ℕ, Bool, List};
ghost use Rattle.lot_events.specs.declared.events.Event.{Event};
ghost use Rattle.lot_core.specs.Model.{StateView, opening_with};
ghost use Rattle.lot_core.specs.Steps.{Allowed, after};
ghost use Rattle.lot_core.specs.Sound.{IsSound};
ghost use Rattle.lot_regions.specs.Watch.{Watch, opening_watch, watch_after, KeepsWatch, IsWatched, WatchedRun};
ghost use Rattle.lot_regions.specs.Watch.{state_after, watch_after_all, NoneIsForgotten};

/// Whatever lock each condition belongs to, and whenever a value is ready for it: after every run from an opening state
/// in which each event keeps the watch, where a value is ready for a condition and somebody stands in its line, a
/// thread outside that line is to see to it. It owes the condition a notification, which it makes before all else; or
/// it was taken from that line, and will leave the lock and so owe one again where the value is ready still; or it
/// sweeps the line.
///
/// Events carry no values: a run comes with the value that each event left, which counts where a calm thread lets a
/// lock go.
pub fn no_notification_is_forgotten<V>()
    ensures opening { (lock_of : ℕ → ℕ) (ready : ℕ → V → Bool) (threads locks conds : ℕ) (permits : List ℕ)
        (values : ℕ → V)
        → IsWatched lock_of ready (opening_with threads locks conds permits) (opening_watch values) }
    ensures event { (lock_of : ℕ → ℕ) (ready : ℕ → V → Bool) (s : StateView) (g : Watch V) (e : Event) (v : V)
        → IsSound s → IsWatched lock_of ready s g → Allowed s e → KeepsWatch lock_of ready g e
        → IsWatched lock_of ready (after s e) (watch_after lock_of ready s g e v) }
    ensures watched { (lock_of : ℕ → ℕ) (ready : ℕ → V → Bool) (s : StateView) (g : Watch V)
        → IsSound s → IsWatched lock_of ready s g → NoneIsForgotten lock_of ready s g }
    ensures run { (lock_of : ℕ → ℕ) (ready : ℕ → V → Bool) (threads locks conds : ℕ) (permits : List ℕ)
        (values : ℕ → V) (events : List (Event × V))
        → WatchedRun lock_of ready (opening_with threads locks conds permits) (opening_watch values) events
        → NoneIsForgotten lock_of ready (state_after (opening_with threads locks conds permits) events)
        (watch_after_all lock_of ready (opening_with threads locks conds permits) (opening_watch values) events) }
{}
