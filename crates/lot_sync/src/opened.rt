//! Opening a lot: first its table, then, under a name, the lot itself.
ghost use Rattle.std.specs.Prelude.{◌≡◌, ◌↔◌, ◌+◌, ◌<◌, ◌≤◌, [], length, vec_len, IfOk, IfErr, IsTrue};
ghost use Rattle.lot_rights.specs.declared.layout.TheConstants.{MOST_KEYS};
ghost use Rattle.lot_sync.specs.Opened.{KeepAll, IsThreadCount, IsKeyCount, IsOpenedWith};

use crate::fault::OpenFault;
use crate::lot::Lot;
use lot_core::{MAX_KEYS, MAX_THREADS};
use lot_scheme::LotName;
use lot_whole::{LotLyingRoot, LotPass, LotWords, WordsFault};
use lot_words::Keeps;
use std::alloc::Global;
use std::marker::Model;

/// A lot whose words are open and which has no name yet: call `start` in a function that is generic over a `LotName`.
/// Contracts see what its name will tell of it.
pub struct Opened<V: Keeps + Send> {
    pub(crate) words: LotWords<V>,
    pub(crate) passes: Vec<LotPass<V>>,
    pub(crate) roots: Vec<LotLyingRoot<V>>,
    pub(crate) threads: usize,
    pub(crate) locks: usize,
    pub(crate) conds: usize,
    pub(crate) sems: usize,
}

impl<V: Keeps + Send> Model for Opened<V> {
    ghost use Rattle.lot_sync.specs.Lot.{LotNames};
    ghost use Rattle.lot_sync.specs.Opened.{IsOpened, opened_as};

    ghost Value = { LotNames V };

    ghost view = { λ s. opened_as s.words };

    ghost invariant = { λ s. IsOpened V.Keeps s.words s.passes.items s.roots.items s.threads s.locks s.conds s.sems };
}

/// Whether a lot may have so many threads.
pub(crate) fn is_thread_count(threads: usize) -> bool
    ensures { IsTrue result ↔ IsThreadCount threads }
{
    threads >= 1 && threads <= MAX_THREADS
}

/// Whether a lot may have so many keys of each kind.
fn is_key_count(locks: usize, conds: usize, sems: usize) -> bool
    ensures { IsTrue result ↔ IsKeyCount locks conds sems }
{
    0 < locks && locks <= MAX_KEYS && conds <= MAX_KEYS - locks && sems <= MAX_KEYS - locks - conds
}

impl<V: Keeps + Send, N: LotName<V> + Send> Lot<V, N> {
    ghost use Rattle.lot_sync.specs.Opened.{KeepAll, IsThreadCount, IsKeyCount, IsOpenedWith, Refuses};

    /// Opens the words of a lot for so many threads, with a lock for each value, and so many conditions, whose numbers
    /// follow the locks'. It is `open_with` without semaphores.
    pub fn open(
        alloc: Global,
        threads: usize,
        values: Vec<V>,
        conds: usize,
    ) -> Result<Opened<V>, (OpenFault, Vec<V>)>
        requires { KeepAll V.keeps values.items }
        ensures opened { IfOk result (λ o. IsOpenedWith o threads values.items conds []) }
        ensures limits { IfOk result (λ _. IsThreadCount threads × IsKeyCount (vec_len values) conds 0) }
        ensures fault { IfErr result (λ e. Refuses (IsKeyCount (vec_len values) conds 0) threads e.0) }
        ensures back { IfErr result (λ e. e.1.items ≡ values.items) }
    {
        Lot::<V, N>::open_with(alloc, threads, values, conds, &[])
    }

    /// Opens the words of a lot for so many threads, with a lock for each value, so many conditions and a semaphore for
    /// each number of permits. The numbers of the conditions follow the locks', and those of the semaphores the
    /// conditions'. Call it at std's `Brand` for N, and then `start` in a function that is generic over the name.
    ///
    /// `BadThreads`, `BadKeys` and `NoMemory` are tested in this order, and the values come back with each.
    pub fn open_with(
        alloc: Global,
        threads: usize,
        values: Vec<V>,
        conds: usize,
        permits: &[u32],
    ) -> Result<Opened<V>, (OpenFault, Vec<V>)>
        requires { KeepAll V.keeps values.items }
        ensures opened { IfOk result (λ o. IsOpenedWith o threads values.items conds permits.now) }
        ensures limits { IfOk result (λ _. IsThreadCount threads
            × IsKeyCount (vec_len values) conds (length permits.now)) }
        ensures fault { IfErr result
            (λ e. Refuses (IsKeyCount (vec_len values) conds (length permits.now)) threads e.0) }
        ensures back { IfErr result (λ e. e.1.items ≡ values.items) }
    {
        if !is_thread_count(threads) {
            return Err((OpenFault::BadThreads, values));
        }
        if !is_key_count(values.len(), conds, permits.len()) {
            return Err((OpenFault::BadKeys, values));
        }
        open_words(alloc, threads, values, conds, permits)
    }
}

/// Opens the words of a lot of so many threads and keys, unless a request for memory is refused.
pub(crate) fn open_words<V: Keeps + Send>(
    alloc: Global,
    threads: usize,
    values: Vec<V>,
    conds: usize,
    permits: &[u32],
) -> Result<Opened<V>, (OpenFault, Vec<V>)>
    requires threads { IsThreadCount threads }
    requires keys { (0 < vec_len values) × (vec_len values + conds + length permits.now ≤ MOST_KEYS) }
    requires keep { KeepAll V.keeps values.items }
    ensures opened { IfOk result (λ o. IsOpenedWith o threads values.items conds permits.now) }
    ensures fault { IfErr result (λ e. e.0 ≡ OpenFault.NoMemory) }
    ensures back { IfErr result (λ e. e.1.items ≡ values.items) }
{
    let (locks, sems) = (values.len(), permits.len());
    let Ok(permits) = permits.to_vec(alloc) else {
        return Err((OpenFault::NoMemory, values));
    };
    match LotWords::open(alloc, threads, values, conds, permits) {
        Ok((words, passes, roots)) => Ok(Opened {
            words,
            passes,
            roots,
            threads,
            locks,
            conds,
            sems,
        }),
        Err((WordsFault::NoMemory, values)) => Err((OpenFault::NoMemory, values)),
    }
}
