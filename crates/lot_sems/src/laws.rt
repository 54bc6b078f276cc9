//! What the semaphore rule and its history mean: laws, each the contract of a function that does nothing. Those of the
//! history itself, which are the same for every kind, are lot_rights' (`lot_rights::laws`).
ghost use Rattle.std.specs.Prelude.{◌≡◌, ℕ, ◌+◌, List};
ghost use Rattle.atomic_table.specs.Table.{State};
ghost use Rattle.lot_core.specs.Model.{opening_with};
ghost use Rattle.lot_core.specs.Parts.{SemaphorePart, semaphore_part};
ghost use Rattle.lot_core.specs.Sound.{IsSoundSemaphorePart};
ghost use Rattle.lot_events.specs.declared.events.Event.{Event};
ghost use Rattle.lot_events.specs.declared.events.Seen.{Seen};
ghost use Rattle.lot_rights.specs.declared.views.Right.{Right};
ghost use Rattle.lot_rights.specs.History.{ModelRun};
ghost use Rattle.lot_rights.specs.Rule.{Ruled};
ghost use Rattle.lot_sems.specs.declared.views.SemPassView.{SemPassView};
ghost use Rattle.lot_sems.specs.declared.views.SemRootView.{SemRootView};
ghost use Rattle.lot_sems.specs.World.{Numbers, permits_of};
ghost use Rattle.lot_sems.specs.Rule.{opening_part, IsStep, meaning};
ghost use Rattle.lot_sems.specs.Headline.{Headline};

/// At every moment the headline holds of one world: what keeps the rule keeps all of it.
pub fn the_rule_is_the_headline()
    ensures { (size : Numbers) (s : State (Unit {0}) (List (Right SemPassView SemRootView)))
        → Ruled (meaning size) s → Headline size s }
{}

/// Every run of the semaphore part from the opening leads to a sound part: permits are conserved, seekers are marked,
/// no permit is left lying, one line each and once, of threads that seek there. So does the one that `close` tells of.
pub fn every_run_is_sound()
    ensures { (size : Numbers) (events : List (Event × Seen)) (part : SemaphorePart)
        → ModelRun (IsStep size) (opening_part size) events part
        → IsSoundSemaphorePart size.threads (permits_of size) part }
{}

/// The history begins at the semaphore part of the model's opening state.
pub fn the_history_begins_at_the_opening()
    ensures { (threads locks conds : ℕ) (permits : List ℕ)
        → opening_part (record { threads = threads; first_sem = locks + conds; permits = permits })
        ≡ semaphore_part (opening_with threads locks conds permits) }
{}
