//! The kind of table that lock words make.
use crate::keeps::Keeps;
use crate::start::Start;
use crate::views::{LockPassView, LockRootView};
use lot_rights::{Kind, Knowledge, PassOf, RootOf};
use std::marker::PhantomData;

/// Lock words: a word has the bits held and parked of its lock, and a slot has the lock's value. Contracts alone read
/// it.
pub struct Locks<V> {
    of: PhantomData<V>,
}

impl<V: Keeps> Kind for Locks<V> {
    ghost use Rattle.lot_words.specs.Rule.{meaning, no_pass, no_root, names, one_outcome, no_letter_in_line};

    type Slot = Option<V>;

    type Pass = Knowledge<LockPassView<V>>;

    type Root = Knowledge<LockRootView>;

    type Key = Start<V>;

    ghost meaning = { λ start. meaning V.Keeps start.size start.values.value.items };

    ghost no_pass = { no_pass };

    ghost no_root = { no_root };

    ghost names = { names };

    ghost table_in = { λ o. o.locks };

    ghost one_outcome = { λ start. one_outcome V.Keeps start.size start.values.value.items };

    ghost no_letter_in_line = { λ start. no_letter_in_line V.Keeps start.size start.values.value.items };
}

/// The right to act as one thread on the locks. Contracts see it as a `PassShown`, whose `own` is a `LockPassView`.
pub type LockPass<V> = PassOf<Locks<V>>;

/// The right to change the line of one lock. Contracts see it as a `RootShown`, whose `own` is a `LockRootView`.
pub type LockRoot<V> = RootOf<Locks<V>>;
