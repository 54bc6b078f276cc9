//! What holds of every run, and what an event of the whole is to its parts: functions that do
//! nothing, whose contracts are the laws.
ghost use Rattle.std.specs.Prelude.{◌≡◌, ℕ, List};
ghost use Rattle.lot_events.specs.declared.events.Event.{Event};
ghost use Rattle.lot_events.specs.declared.events.Seen.{Seen};
ghost use Rattle.lot_core.specs.Model.{StateView, opening_with};
ghost use Rattle.lot_core.specs.Steps.{Allowed, Run, after, after_all, IsReached};
ghost use Rattle.lot_core.specs.Sound.{IsSound, IsSoundLockPart, IsSoundCondPart, IsSoundSemaphorePart, ArePartsSound};
ghost use Rattle.lot_core.specs.WellFormed.{IsWellFormed};
ghost use Rattle.lot_core.specs.Script.{Spells, SpellsScript, IsFirstBad};
ghost use Rattle.lot_core.specs.Parts.{LockPart, LockStep, CondPart, condition_part, CondStep, SemaphorePart};
ghost use Rattle.lot_core.specs.Parts.{semaphore_part, SemaphoreStep};
ghost use Rattle.lot_core.specs.Parts.{LockPartAllows, CondPartAllows, SemaphorePartAllows};
ghost use Rattle.lot_core.specs.Parts.{LockPartFollows, CondPartFollows, SemaphorePartFollows};

/// After every run from an opening state the state is sound, whatever its numbers of threads, locks
/// and conditions and its semaphores' permits, and however long it is.
pub fn every_run_is_sound()
    ensures { (threads locks conds : ℕ) (permits : List ℕ) (events : List Event) →
        Run (opening_with threads locks conds permits) events →
        IsSound (after_all (opening_with threads locks conds permits) events) }
{}

/// An event that is allowed in a sound state leaves a sound state behind, and each opening state is
/// sound. So is each state that a run from an opening state reaches, and one more event leads from
/// such a state to another.
pub fn every_event_keeps_soundness()
    ensures opening { (threads locks conds : ℕ) (permits : List ℕ)
        → IsSound (opening_with threads locks conds permits) }
    ensures event { (s : StateView) (e : Event) → IsSound s → Allowed s e → IsSound (after s e) }
    ensures reached { (s : StateView) → IsReached s → IsSound s }
    ensures further { (s : StateView) (e : Event) → IsReached s → Allowed s e → IsReached (after s e) }
{}

/// Every state that a run reaches names only its own threads, locks, conditions and semaphores: so does each opening,
/// and an event that is allowed in such a state, where that is sound, leaves such a state behind.
pub fn every_run_stays_well_formed()
    ensures opening { (threads locks conds : ℕ) (permits : List ℕ)
        → IsWellFormed (opening_with threads locks conds permits) }
    ensures event { (s : StateView) (e : Event) → IsSound s → IsWellFormed s → Allowed s e → IsWellFormed (after s e) }
    ensures reached { (s : StateView) → IsReached s → IsWellFormed s }
{}

/// An event of the whole is a step of the part that it belongs to, with the same answer, and leaves
/// the other parts as they are. So the words of locks, those of conditions and those of semaphores
/// can be ruled apart. It is allowed in the whole exactly where its part allows it and its thread
/// stands as it asks.
///
/// The condition part and the semaphore part ask for a sound state: only there is it sure that the
/// thread to whom a lock is handed swept nothing and sought no permit, and that a calm thread is in
/// no condition's line.
pub fn parts_follow()
    ensures lock_part { (s : StateView) (e : Event) → Allowed s e → LockPartFollows s e }
    ensures condition_part { (s : StateView) (e : Event) → IsSound s → Allowed s e → CondPartFollows s e }
    ensures semaphore_part { (s : StateView) (e : Event) → IsSound s → Allowed s e → SemaphorePartFollows s e }
    ensures lock_allowed { (s : StateView) (e : Event) → LockPartAllows s e }
    ensures cond_allowed { (s : StateView) (e : Event) → IsSound s → CondPartAllows s e }
    ensures semaphore_allowed { (s : StateView) (e : Event) → SemaphorePartAllows s e }
{}

/// A step of a part leads from a sound part to a sound part, whatever the other parts do, and the
/// parts of each opening state are sound: so every run of a part alone keeps it sound.
///
/// Of a sound state the condition part and the semaphore part are sound. The lock part need not be:
/// there a resting thread may be the one that tries to get a lock, and the lock part does not tell
/// who rests. Of a state that a run reaches it is.
pub fn every_step_keeps_its_part_sound()
    ensures opening { (threads locks conds : ℕ) (permits : List ℕ)
        → ArePartsSound (opening_with threads locks conds permits) }
    ensures lock_part { (threads locks : ℕ) (a b : LockPart) (e : Event) (saw : Seen) →
        LockStep threads locks a e saw b → IsSoundLockPart threads a → IsSoundLockPart threads b }
    ensures condition_part { (threads locks conds : ℕ) (a b : CondPart) (e : Event) (saw : Seen) →
        CondStep threads locks conds a e saw b → IsSoundCondPart threads a → IsSoundCondPart threads b }
    ensures semaphore_part { (threads first_sem sems : ℕ) (permits : ℕ → ℕ) (a b : SemaphorePart)
        (e : Event) (saw : Seen) →
        SemaphoreStep threads first_sem sems a e saw b →
        IsSoundSemaphorePart threads permits a → IsSoundSemaphorePart threads permits b }
    ensures whole { (s : StateView) → IsSound s →
        IsSoundCondPart s.threads (condition_part s) × IsSoundSemaphorePart s.threads s.permits (semaphore_part s) }
    ensures reached { (s : StateView) → IsReached s → ArePartsSound s }
{}

/// A text that spells a script has no bad line, and spells no other script: so
/// [`parse_script`](crate::parse_script) reads each back, memory allowing. A line spells one event
/// at most, though one event may have two spellings.
pub fn spelled_scripts_are_read()
    ensures read { (text : List ℕ) (n l c : ℕ) (ps : List ℕ) (events : List Event) (number : ℕ) →
        SpellsScript text n l c ps events → IsFirstBad text number → ⊥ }
    ensures one { (text : List ℕ) (n l c n' l' c' : ℕ) (ps ps' : List ℕ) (events events' : List Event) →
        SpellsScript text n l c ps events → SpellsScript text n' l' c' ps' events' →
        (n ≡ n') × (l ≡ l') × (c ≡ c') × (ps ≡ ps') × (events ≡ events') }
    ensures one_event { (line : List ℕ) (e e' : Event) → Spells line e → Spells line e' → e ≡ e' }
{}
