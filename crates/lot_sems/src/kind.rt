//! The kind of table that semaphore words make.
use crate::start::Start;
use crate::views::{SemPassView, SemRootView};
use lot_rights::{Kind, Knowledge, PassOf, RootOf};

/// Semaphore words: a word is twice the permits that are left of its semaphore, and the parked bit. Contracts alone
/// read it.
pub struct Semaphores;

impl Kind for Semaphores {
    ghost use Rattle.lot_sems.specs.World.{numbers};
    ghost use Rattle.lot_sems.specs.Rule.{meaning, no_pass, no_root, names, one_outcome, no_letter_in_line};

    type Slot = ();

    type Pass = Knowledge<SemPassView>;

    type Root = Knowledge<SemRootView>;

    type Key = Start;

    ghost meaning = { λ start. meaning (numbers start) };

    ghost no_pass = { no_pass };

    ghost no_root = { no_root };

    ghost names = { names };

    ghost table_in = { λ o. o.sems };

    ghost one_outcome = { λ start. one_outcome (numbers start) };

    ghost no_letter_in_line = { λ start. no_letter_in_line (numbers start) };
}

/// The right to act as one thread on the semaphores. Contracts see it as a `PassShown`, whose `own` is a `SemPassView`.
pub type SemPass = PassOf<Semaphores>;

/// The right to change the line of one semaphore. Contracts see it as a `RootShown`, whose `own` is a `SemRootView`.
pub type SemRoot = RootOf<Semaphores>;
