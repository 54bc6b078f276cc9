//! The kind of table that a lot's words make.
use crate::start::Start;
use crate::views::{LotPassView, LotRootView};
use lot_rights::{Kind, Knowledge, LyingRootOf, PassOf, RootOf};
use lot_words::Keeps;
use std::marker::PhantomData;

/// The words of a whole lot: of its locks, conditions and semaphores, with a slot for each lock's value. Contracts
/// alone read it.
pub struct WholeLot<V> {
    of: PhantomData<V>,
}

impl<V: Keeps> Kind for WholeLot<V> {
    ghost use Rattle.lot_whole.specs.Rule.{meaning, one_outcome_of, no_letter_of};
    ghost use Rattle.lot_whole.specs.Lot.{no_pass, no_root, names};

    type Slot = Option<V>;

    type Pass = Knowledge<LotPassView<V>>;

    type Root = Knowledge<LotRootView>;

    type Key = Start<V>;

    ghost meaning = { meaning V.Keeps };

    ghost no_pass = { no_pass };

    ghost no_root = { no_root };

    ghost names = { names };

    ghost table_in = { λ o. o.locks };

    ghost one_outcome = { one_outcome_of V.Keeps };

    ghost no_letter_in_line = { no_letter_of V.Keeps };
}

/// The right to act as one thread. Contracts see it as a `PassShown`, whose `own` is a `LotPassView`.
pub type LotPass<V> = PassOf<WholeLot<V>>;

/// The right to change the line of one key, of whatever kind. Contracts see it as a `RootShown`, whose `own` is a
/// `LotRootView`.
pub type LotRoot<V> = RootOf<WholeLot<V>>;

/// A root as it lies in a bucket or in a list, which takes no bytes; contracts see it as a `LotRoot`.
pub type LotLyingRoot<V> = LyingRootOf<WholeLot<V>>;
