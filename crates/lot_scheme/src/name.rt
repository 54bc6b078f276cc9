//! The name of a lot.
ghost use Rattle.std.specs.Prelude.{ℕ, List};

use lot_rights::Name;
use std::marker::Brand;

/// Names one opening of a lot: its table, its numbers of threads and keys, and the values and permits that it opened
/// with.
///
/// A program opens first, and then calls, with std's `Brand` for N, a function that is generic over `N: LotName<V>`.
pub trait LotName<V>: Name {
    /// The number of the first semaphore.
    ghost first_sem: { ℕ };

    /// How many permits each semaphore has at the opening.
    ghost permits: { List ℕ };

    ghost locks: { ℕ };

    ghost conds: { ℕ };

    ghost threads: { ℕ };

    ghost values: { List V };
}

impl<V> LotName<V> for Brand {
    ghost use Rattle.std.specs.Prelude.{[]};

    ghost first_sem = { 0 };

    ghost permits = { [] };

    ghost locks = { 0 };

    ghost conds = { 0 };

    ghost threads = { 0 };

    ghost values = { [] };
}
