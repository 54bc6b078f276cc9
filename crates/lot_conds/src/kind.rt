//! The kind of table that condition words make.
use crate::views::{CondPassView, CondRootView, Size};
use lot_rights::{Kind, Knowledge, PassOf, RootOf};

/// Condition words: a word is 1 where threads may wait on its condition. Contracts alone read it.
pub struct Conditions;

impl Kind for Conditions {
    ghost use Rattle.std.specs.Prelude.{◌⊎◌};
    ghost use Rattle.std.specs.List.{Contains};
    ghost use Rattle.lot_conds.specs.Rule.{meaning, no_pass, no_root, one_outcome, no_letter_in_line};

    type Slot = ();

    type Pass = Knowledge<CondPassView>;

    type Root = Knowledge<CondRootView>;

    type Key = Size;

    ghost meaning = { meaning };

    ghost no_pass = { no_pass };

    ghost no_root = { no_root };

    ghost names = { λ q u. Contains q.line u ⊎ Contains q.owes u };

    ghost table_in = { λ o. o.conds };

    ghost one_outcome = { one_outcome };

    ghost no_letter_in_line = { no_letter_in_line };
}

/// The right to act as one thread on the conditions. Contracts see it as a `PassShown`, whose `own` is a
/// `CondPassView`.
pub type CondPass = PassOf<Conditions>;

/// The right to change the line of one condition. Contracts see it as a `RootShown`, whose `own` is a `CondRootView`.
pub type CondRoot = RootOf<Conditions>;
