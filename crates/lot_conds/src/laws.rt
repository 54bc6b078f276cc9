//! What the condition rule and its history mean: laws, each the contract of a function that does nothing. Those of the
//! history itself, which are the same for every kind, are lot_rights' (`lot_rights::laws`).
ghost use Rattle.std.specs.Prelude.{◌≡◌, ℕ, ◌<◌, List};
ghost use Rattle.atomic_table.specs.Table.{State};
ghost use Rattle.lot_core.specs.Model.{opening};
ghost use Rattle.lot_core.specs.Parts.{CondPart, condition_part};
ghost use Rattle.lot_core.specs.Sound.{IsSoundCondPart};
ghost use Rattle.lot_events.specs.declared.events.Event.{Event};
ghost use Rattle.lot_events.specs.declared.events.Event.TheVariants.{Enlist};
ghost use Rattle.lot_events.specs.declared.events.Seen.{Seen};
ghost use Rattle.lot_rights.specs.declared.views.Right.{Right};
ghost use Rattle.lot_rights.specs.History.{ModelRun};
ghost use Rattle.lot_rights.specs.Rule.{Ruled};
ghost use Rattle.lot_conds.specs.declared.views.CondPassView.{CondPassView};
ghost use Rattle.lot_conds.specs.declared.views.CondRootView.{CondRootView};
ghost use Rattle.lot_conds.specs.declared.views.Size.{Size};
ghost use Rattle.lot_conds.specs.Rule.{IsStep, opening_part, meaning};
ghost use Rattle.lot_conds.specs.Headline.{Headline};

/// At every moment the headline holds of one world: what keeps the rule keeps all of it.
pub fn the_rule_is_the_headline()
    ensures { (size : Size) (s : State (Unit {0}) (List (Right CondPassView CondRootView)))
        → Ruled (meaning size) s → Headline size s }
{}

/// Every run of the condition part from the opening leads to a sound part: someone sweeps, one line each and once, of
/// threads. So does the one that `close` tells of.
pub fn every_run_is_sound()
    ensures { (size : Size) (events : List (Event × Seen)) (part : CondPart)
        → ModelRun (IsStep size) opening_part events part → IsSoundCondPart size.threads part }
{}

/// The history begins at the condition part of the model's opening state.
pub fn the_history_begins_at_the_opening()
    ensures { (threads locks conds : ℕ) → opening_part ≡ condition_part (opening threads locks conds) }
{}

/// An Enlist is so with each lock: to the condition part it makes no difference which lock the thread has.
pub fn an_enlist_is_so_with_each_lock()
    ensures { (size : Size) (a b : CondPart) (t c k l : ℕ) (saw : Seen) → l < size.locks
        → IsStep size a (Enlist t c k) saw b → IsStep size a (Enlist t c l) saw b }
{}
