//! Kinds of tables.
ghost use Rattle.std.specs.Prelude.{ℕ};

use atomic_table::{Seat, Shared, Table, TableRule};
use std::alloc::Global;
use std::marker::{Model, PhantomData};

/// A kind of table: what its words, slots and rights stand for. Contracts alone read it.
pub trait Kind {
    ghost use Rattle.std.specs.Prelude.{ℕ};
    ghost use Rattle.atomic_table.specs.Seated.{TableId};
    ghost use Rattle.lot_rights.specs.Rule.{Meaning};
    ghost use Rattle.lot_rights.specs.Settled.{HasOneOutcome, LinesHaveNoLetter};
    ghost use Rattle.lot_rights.specs.Opening.{Opening};

    /// What a slot has.
    type Slot;
    /// What a pass knows, beside its thread and its entries. No value of it is made: name a struct without fields, and
    /// its view tells.
    type Pass;
    /// What a root knows, beside its key and its entries. Of it as of `Pass`.
    type Root;
    /// What the table is told when it is made.
    type Key;

    ghost meaning: { Self.Key → Meaning Self.Slot Self.Pass Self.Root };

    // What no pass and no root knows.
    ghost no_pass: { Self.Pass };

    ghost no_root: { Self.Root };

    // The root names a thread, whose letter may have to be posted with it.
    ghost names: { Self.Root → ℕ → Type 0 };

    // The table of this kind, of an opening.
    ghost table_in: { Opening → TableId };

    // A step of the model has one outcome.
    ghost one_outcome: { (key : Self.Key) → HasOneOutcome (meaning key) };

    // Whatever the words stand for, no letter lies for a thread that is in a line.
    ghost no_letter_in_line: { (key : Self.Key) → LinesHaveNoLetter (meaning key) };
}

/// What contracts see of a seat: the list of its rights. It has no fields, and no value of it is made by running code;
/// so a table's type does not spell out what its rights know.
pub struct RightsView<K: Kind> {
    of: PhantomData<K>,
}

impl<K: Kind> Model for RightsView<K> {
    ghost use Rattle.std.specs.Prelude.{List, []};
    ghost use Rattle.lot_rights.specs.declared.views.Right.{Right};

    ghost Value = { List (Right K.Pass K.Root) };

    ghost view = { λ _. [] };
}

/// The rule of a kind: the words, the slots and the rights stand for one world, to which one history has led.
pub struct RightsRule<K> {
    of: PhantomData<K>,
}

impl<K: Kind> TableRule<K::Slot, RightsView<K>, K::Key> for RightsRule<K> {
    ghost use Rattle.lot_rights.specs.Rule.{Ruled};
    ghost use Rattle.lot_rights.specs.Start.{all_rights};

    ghost holds = { λ key s. Ruled (K.meaning key) s };

    ghost first = { λ key. all_rights (K.meaning key) };
}

pub type RightsTable<K> = Table<
    <K as Kind>::Slot,
    RightsView<K>,
    <K as Kind>::Key,
    RightsRule<K>,
    Global,
>;

pub type RightsShared<K> = Shared<
    <K as Kind>::Slot,
    RightsView<K>,
    <K as Kind>::Key,
    RightsRule<K>,
>;

pub type RightsSeat<K> = Seat<<K as Kind>::Slot, RightsView<K>>;
