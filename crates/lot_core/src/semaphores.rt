//! Semaphores: of each its permits, its parked bit and its line of sleepers.
ghost use Rattle.std.specs.Prelude.{◌≡◌, ◌+◌, ◌-◌, ◌^◌, ◌<◌, ◌≤◌, ◌↔◌, ◌++◌, ◌∷◌, [], false, not, length, IsTrue, IfOk};
ghost use Rattle.std.specs.Prelude.{OnOk, OnErr, drop, replicate, slice_index, slice_set, sum};
ghost use Rattle.std.specs.List.{All};
ghost use Rattle.lot_core.specs.Lines.{key_count};

use crate::lines::Lines;
use std::alloc::{AllocError, Global};

/// The permits of one semaphore, and its parked bit.
#[derive(Debug, Drop)]
struct Semaphore {
    /// How many permits it was opened with.
    permits: u32,
    left: u32,
    parked: bool,
    /// How many are out with each thread.
    out: Vec<u32>,
    ghost conserved: { left + sum out.items ≡ permits },
}

impl Semaphore {
    fn new(alloc: Global, threads: usize, permits: u32) -> Result<Semaphore, AllocError>
        ensures permits { IfOk result (λ m. (m.permits ≡ permits) × (m.left ≡ permits)) }
        ensures out { IfOk result (λ m. (m.parked ≡ false) × (m.out.items ≡ replicate threads 0)) }
    {
        Ok(Semaphore {
            permits,
            left: permits,
            parked: false,
            out: vec![in alloc; 0; threads]?,
        })
    }

    fn take(&mut self, thread: usize)
        requires left { 1 ≤ self.old.left }
        requires thread { thread < length self.old.out.items }
        ensures left { self.new.left ≡ self.old.left - 1 }
        ensures out { self.new.out.items ≡
            slice_set self.old.out.items thread (slice_index self.old.out.items thread + 1) }
        ensures others { (self.new.permits ≡ self.old.permits) × (self.new.parked ≡ self.old.parked) }
    {
        self.left -= 1;
        self.out[thread] += 1;
    }

    fn give(&mut self, thread: usize)
        requires { (thread < length self.old.out.items) × (1 ≤ slice_index self.old.out.items thread) }
        ensures left { self.new.left ≡ self.old.left + 1 }
        ensures out { self.new.out.items ≡
            slice_set self.old.out.items thread (slice_index self.old.out.items thread - 1) }
        ensures others { (self.new.permits ≡ self.old.permits) × (self.new.parked ≡ self.old.parked) }
    {
        self.left += 1;
        self.out[thread] -= 1;
    }
}

/// The semaphores of a state.
#[derive(Debug, Drop)]
pub(crate) struct Semaphores {
    /// The first semaphore's key.
    first_sem: usize,
    threads: usize,
    items: Vec<Semaphore>,
    pub(crate) lines: Lines,
    ghost keys_fit: { first_sem + length items.items < 2 ^ 64 },
    ghost out_each: { All (λ m. length m.out.items ≡ threads) items.items },
    ghost line_each: { (lines.low ≡ first_sem) × (key_count lines ≡ length items.items) },
}

impl Semaphores {
    ghost use Rattle.lot_core.specs.Model.{none_taken};
    ghost use Rattle.lot_core.specs.Sums.{total};
    ghost use Rattle.lot_core.specs.Rows.{row_from};
    ghost use Rattle.lot_core.specs.Steps.{first, none_left, permit_given, permit_passed, permit_taken, with_sem_line};
    ghost use Rattle.lot_core.specs.Steps.{with_sem_parked};
    ghost use Rattle.lot_core.specs.Semaphores.{semaphores_of, permits_of, sem_count, HasSemaphore, KeepsNumbers};

    /// Semaphores with these opening numbers, from `first_sem` on, all permits left.
    pub(crate) fn new(
        alloc: Global,
        first_sem: usize,
        threads: usize,
        permits: &[u32],
    ) -> Result<Semaphores, AllocError>
        requires { first_sem + length permits.now < 2 ^ 64 }
        ensures numbers { IfOk result (λ s. (s.first_sem ≡ first_sem) × (s.threads ≡ threads)
            × (sem_count s ≡ length permits.now)) }
        ensures permits { IfOk result (λ s. permits_of s ≡ row_from 0 first_sem permits.now) }
        ensures sems { IfOk result (λ s. semaphores_of s ≡ none_taken (row_from 0 first_sem permits.now)) }
    {
        let mut items = Vec::with_capacity(alloc, permits.len())?;
        for number in permits {
            items.push(Semaphore::new(alloc, threads, *number)?)?;
        }
        let lines = Lines::new(alloc, first_sem, permits.len())?;
        Ok(Semaphores {
            first_sem,
            threads,
            items,
            lines,
        })
    }

    /// How many there are.
    pub(crate) fn len(&self) -> usize
        ensures { result ≡ sem_count self.now }
    {
        self.items.len()
    }

    /// The key of number `i`.
    pub(crate) fn key(&self, i: usize) -> usize
        requires { i < sem_count self.now }
        ensures { result ≡ self.now.first_sem + i }
    {
        self.first_sem + i
    }

    /// Whether this is the key of one.
    pub(crate) fn has(&self, key: usize) -> bool
        ensures { IsTrue result ↔ HasSemaphore self.now key }
    {
        key >= self.first_sem && key - self.first_sem < self.items.len()
    }

    /// How many permits are left.
    pub(crate) fn left(&self, sem: usize) -> u32
        requires { HasSemaphore self.now sem }
        ensures { result ≡ (semaphores_of self.now).left sem }
    {
        self.items[sem - self.first_sem].left
    }

    pub(crate) fn is_parked(&self, sem: usize) -> bool
        requires { HasSemaphore self.now sem }
        ensures { result ≡ (semaphores_of self.now).parked sem }
    {
        self.items[sem - self.first_sem].parked
    }

    /// How many permits are out with this thread.
    pub(crate) fn out_with(&self, sem: usize, thread: usize) -> u32
        requires key { HasSemaphore self.now sem }
        requires thread { thread < self.now.threads }
        ensures { result ≡ (semaphores_of self.now).out sem thread }
    {
        self.items[sem - self.first_sem].out[thread]
    }

    /// How many permits are out.
    pub(crate) fn all_out(&self, sem: usize) -> u32
        requires { HasSemaphore self.now sem }
        ensures { result ≡ total self.now.threads ((semaphores_of self.now).out sem) }
    {
        let semaphore = &self.items[sem - self.first_sem];
        semaphore.permits - semaphore.left
    }

    pub(crate) fn set_parked(&mut self, sem: usize, parked: bool)
        requires { HasSemaphore self.old sem }
        ensures sems { semaphores_of self.new ≡ with_sem_parked (semaphores_of self.old) sem parked }
        ensures numbers { KeepsNumbers self.old self.new }
    {
        self.items[sem - self.first_sem].parked = parked;
    }

    /// The thread takes a permit where one is left; whether it did.
    pub(crate) fn take(&mut self, thread: usize, sem: usize) -> bool
        requires key { HasSemaphore self.old sem }
        requires thread { thread < self.old.threads }
        ensures answer { result ≡ not (none_left (semaphores_of self.old) sem) }
        ensures sems { semaphores_of self.new ≡ permit_taken (semaphores_of self.old) thread sem }
        ensures numbers { KeepsNumbers self.old self.new }
    {
        if self.left(sem) == 0 {
            return false;
        }
        self.items[sem - self.first_sem].take(thread);
        true
    }

    /// The thread gives a permit back.
    pub(crate) fn give(&mut self, thread: usize, sem: usize)
        requires key { HasSemaphore self.old sem }
        requires thread { (thread < self.old.threads) × (1 ≤ (semaphores_of self.old).out sem thread) }
        ensures sems { semaphores_of self.new ≡ permit_given (semaphores_of self.old) thread sem }
        ensures numbers { KeepsNumbers self.old self.new }
    {
        self.items[sem - self.first_sem].give(thread);
    }

    /// The thread goes last in the line.
    pub(crate) fn join(&mut self, sem: usize, thread: usize) -> Result<(), AllocError>
        requires { HasSemaphore self.old sem }
        ensures ok { OnOk result (semaphores_of self.new ≡ with_sem_line (semaphores_of self.old) sem
            ((semaphores_of self.old).line sem ++ thread ∷ [])) }
        ensures err { OnErr result (semaphores_of self.new ≡ semaphores_of self.old) }
        ensures numbers { KeepsNumbers self.old self.new }
    {
        self.lines.push(sem, thread)
    }

    /// The thread gives a permit back. The first of the line, if any, leaves it, and the parked bit
    /// is then `more`.
    pub(crate) fn pass(&mut self, thread: usize, sem: usize, more: bool) -> Option<usize>
        requires key { HasSemaphore self.old sem }
        requires thread { (thread < self.old.threads) × (1 ≤ (semaphores_of self.old).out sem thread) }
        ensures first { result ≡ first ((semaphores_of self.old).line sem) }
        ensures sems { semaphores_of self.new ≡ permit_passed (semaphores_of self.old) thread sem more }
        ensures numbers { KeepsNumbers self.old self.new }
    {
        self.give(thread, sem);
        let first = self.leave(sem);
        if first.is_some() {
            self.set_parked(sem, more);
        }
        first
    }

    // The first of the line, if any, leaves it.
    fn leave(&mut self, sem: usize) -> Option<usize>
        requires { HasSemaphore self.old sem }
        ensures first { result ≡ first ((semaphores_of self.old).line sem) }
        ensures rest { semaphores_of self.new ≡ with_sem_line (semaphores_of self.old) sem
            (drop 1 ((semaphores_of self.old).line sem)) }
        ensures numbers { KeepsNumbers self.old self.new }
    {
        self.lines.take_first(sem)
    }
}
