//! Permits, and what the calls on them answer.
ghost use Rattle.std.specs.Prelude.{◌≡◌, length};
ghost use Rattle.lot_core.specs.Parts.{IsAmongSemaphores};

use lot_scheme::LotName;
use std::marker::{Model, PhantomData};
use std::snapshot::Snapshot;

/// A permit of a semaphore. Contracts see the semaphore's key, and the thread that got it. It must be spent, by
/// `release` with the pass of that thread.
pub struct Permit<V, N: LotName<V>> {
    key: usize,
    thread: Snapshot<usize>,
    of: PhantomData<N>,
    values: PhantomData<V>,
}

impl<V, N: LotName<V>> Model for Permit<V, N> {
    ghost use Rattle.std.specs.Prelude.{length};
    ghost use Rattle.lot_core.specs.Parts.{IsAmongSemaphores};
    ghost use Rattle.lot_permits.specs.Permits.{PermitView};

    ghost Value = { PermitView };

    ghost view = { λ s. record { key = s.key; thread = s.thread.value } };

    ghost invariant = { λ s. IsAmongSemaphores N.first_sem (length N.permits) s.key };
}

impl<V, N: LotName<V>> Permit<V, N> {
    /// The key of the semaphore.
    pub fn key(&self) -> usize
        ensures key { result ≡ self.now.key }
        ensures among { IsAmongSemaphores N.first_sem (length N.permits) self.now.key }
    {
        self.key
    }

    #[inline(always)]
    pub(crate) fn new(key: usize, thread: usize) -> Permit<V, N>
        requires { IsAmongSemaphores N.first_sem (length N.permits) key }
        ensures { (result.key ≡ key) × (result.thread ≡ thread) }
    {
        Permit {
            key,
            thread: Snapshot::of(&thread),
            of: PhantomData,
            values: PhantomData,
        }
    }

    #[inline(always)]
    pub(crate) fn into_key(self) -> usize
        ensures key { result ≡ self.key }
        ensures among { IsAmongSemaphores N.first_sem (length N.permits) result }
    {
        let Permit {
            key,
            thread: _,
            of: _,
            values: _,
        } = self;
        key
    }
}

/// What came of a try to get a permit.
pub enum Tried<V, N: LotName<V>> {
    /// The thread has this permit now.
    Got(Permit<V, N>),
    /// A load found that no permit is left.
    Empty,
    /// The semaphore's word was just changed by another thread. Nothing was done, and it may be tried again.
    Busy,
}

/// What became of a permit that was given back.
#[derive(Clone, Copy, Debug, PartialEq, Eq)]
pub enum Freed {
    /// Nobody was parked.
    Quiet,
    /// The first thread of the line was woken, and tries again.
    Woke,
    /// The slow way was taken, and nobody was in the line.
    Nobody,
}
