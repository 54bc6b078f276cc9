//! What a witness is worth: functions that do nothing, whose contracts are the laws.
ghost use Rattle.std.specs.Prelude.{◌≡◌, ℕ, List};
ghost use Rattle.lot_core.specs.Model.{StateView, opening_with};
ghost use Rattle.lot_core.specs.Steps.{Run, IsReached, after_all};
ghost use Rattle.lot_witness.specs.declared.witness.Sighting.{Sighting};
ghost use Rattle.lot_witness.specs.Spelling.{SpellsWitness, IsFirstBad};
ghost use Rattle.lot_witness.specs.Judging.{RunSaw, events_of};

/// The events of a witness that is accepted are a run of the model, so what holds of every run holds of it.
pub fn a_witness_is_a_run()
    ensures run { (s : StateView) (xs : List Sighting) → RunSaw s xs → Run s (events_of xs) }
    ensures reached { (threads locks conds : ℕ) (permits : List ℕ) (xs : List Sighting)
        → RunSaw (opening_with threads locks conds permits) xs
        → IsReached (after_all (opening_with threads locks conds permits) (events_of xs)) }
{}

/// A text that spells a witness has no bad line, and spells no other: so [`parse_witness`](crate::parse_witness) reads
/// each back, memory allowing.
pub fn spelled_witnesses_are_read()
    ensures read { (text : List ℕ) (n l c : ℕ) (ps : List ℕ) (xs : List Sighting) (number : ℕ) →
        SpellsWitness text n l c ps xs → IsFirstBad text number → ⊥ }
    ensures one { (text : List ℕ) (n l c n' l' c' : ℕ) (ps ps' : List ℕ) (xs xs' : List Sighting) →
        SpellsWitness text n l c ps xs → SpellsWitness text n' l' c' ps' xs' →
        (n ≡ n') × (l ≡ l') × (c ≡ c') × (ps ≡ ps') × (xs ≡ xs') }
{}
