//! Opening a lot of many keys.
ghost use Rattle.std.specs.Prelude.{◌≡◌, ◌↔◌, ◌+◌, length, vec_len, IfOk, IfErr, IsTrue};
ghost use Rattle.lot_sync.specs.Opened.{AreManyKeys};

use crate::fault::OpenFault;
use crate::lot::Lot;
use crate::opened::{Opened, is_thread_count, open_words};
use lot_rights::MOST_KEYS;
use lot_scheme::LotName;
use lot_words::Keeps;
use std::alloc::Global;

/// How many conditions a lot of many keys can have. Each takes 16 bytes for each thread, used or not: with this many
/// and 256 threads 268 MB.
pub const MOST_CONDS: usize = 65_536;

/// Whether a lot may have so many keys of each kind, where it may have many.
fn are_many_keys(locks: usize, conds: usize, sems: usize) -> bool
    ensures { IsTrue result ↔ AreManyKeys locks conds sems }
{
    0 < locks
        && conds <= MOST_CONDS
        && locks <= MOST_KEYS
        && conds <= MOST_KEYS - locks
        && sems <= MOST_KEYS - locks - conds
}

impl<V: Keeps + Send, N: LotName<V> + Send> Lot<V, N> {
    ghost use Rattle.lot_sync.specs.Opened.{KeepAll, IsThreadCount, AreManyKeys, IsOpenedWith, Refuses};

    /// `open_with` for a lot of many keys: up to [`MOST_KEYS`](lot_rights::MOST_KEYS) locks, conditions and semaphores
    /// together, and up to [`MOST_CONDS`] conditions among them; more of either are `BadKeys`. A lot of more than
    /// [`MAX_KEYS`](lot_core::MAX_KEYS) keys starts with all the buckets that its threads will need, so no `register`
    /// waits until its roots were moved.
    ///
    /// A runtime that has a lock for each of a million objects, of which each guards a number:
    ///
    /// ```text
    /// let opened = Lot::<Number, Brand>::open_many(alloc, threads, numbers, 0, &[]);
    /// ```
    pub fn open_many(
        alloc: Global,
        threads: usize,
        values: Vec<V>,
        conds: usize,
        permits: &[u32],
    ) -> Result<Opened<V>, (OpenFault, Vec<V>)>
        requires { KeepAll V.keeps values.items }
        ensures opened { IfOk result (λ o. IsOpenedWith o threads values.items conds permits.now) }
        ensures limits { IfOk result (λ _. IsThreadCount threads
            × AreManyKeys (vec_len values) conds (length permits.now)) }
        ensures fault { IfErr result
            (λ e. Refuses (AreManyKeys (vec_len values) conds (length permits.now)) threads e.0) }
        ensures back { IfErr result (λ e. e.1.items ≡ values.items) }
    {
        if !is_thread_count(threads) {
            return Err((OpenFault::BadThreads, values));
        }
        if !are_many_keys(values.len(), conds, permits.len()) {
            return Err((OpenFault::BadKeys, values));
        }
        open_words(alloc, threads, values, conds, permits)
    }
}
