//! Opening a state.
ghost use Rattle.std.specs.Prelude.{◌≡◌, ◌↔◌, length, IsTrue, IfOk};
ghost use Rattle.lot_core.specs.Limits.{Limits};

use crate::lines::Lines;
use crate::semaphores::Semaphores;
use crate::state::{CoreFault, MAX_KEYS, MAX_THREADS, State};
use lot_events::Point;
use std::alloc::{AllocError, Global};

fn is_within_limits(threads: usize, locks: usize, conds: usize, sems: usize) -> bool
    ensures { IsTrue result ↔ Limits threads locks conds sems }
{
    if threads < 1 || threads > MAX_THREADS || locks < 1 || locks > MAX_KEYS {
        return false;
    }
    conds <= MAX_KEYS - locks && sems <= MAX_KEYS - locks - conds
}

#[tactic(auto)]
impl State {
    ghost use Rattle.lot_core.specs.Model.{opening_with};
    ghost use Rattle.lot_core.specs.State.{state_of, Opens, OpensWith};

    fn at_rest(
        alloc: Global,
        threads: usize,
        locks: usize,
        conds: usize,
        permits: &[u32],
    ) -> Result<State, AllocError>
        requires { Limits threads locks conds (length permits.now) }
        ensures { IfOk result (λ s. state_of s ≡ opening_with threads locks conds permits.now) }
    {
        Ok(State {
            threads,
            locks,
            conds,
            owners: vec![in alloc; None; locks]?,
            parked: vec![in alloc; false; locks]?,
            lock_lines: Lines::new(alloc, 0, locks)?,
            flags: vec![in alloc; false; conds]?,
            cond_lines: Lines::new(alloc, locks, conds)?,
            sems: Semaphores::new(alloc, locks + conds, threads, permits)?,
            points: vec![in alloc; Point::Calm; threads]?,
        })
    }

    /// The state in which no lock is held or parked, no flag set, no line has a thread and every
    /// thread is calm.
    ///
    /// It answers BadLimits where there is no thread or no lock, more than [`MAX_THREADS`] threads,
    /// or more than [`MAX_KEYS`] locks and conditions together, and NoMemory where memory was wanted
    /// and not had.
    pub fn open(
        alloc: Global,
        threads: usize,
        locks: usize,
        conds: usize,
    ) -> Result<State, CoreFault>
        ensures { Opens threads locks conds result }
    {
        State::open_with(alloc, threads, locks, conds, &[])
    }

    /// The same with a semaphore for each of these numbers, which is how many permits it has: all
    /// are left.
    ///
    /// Semaphores are keys too, of which there may be [`MAX_KEYS`].
    pub fn open_with(
        alloc: Global,
        threads: usize,
        locks: usize,
        conds: usize,
        permits: &[u32],
    ) -> Result<State, CoreFault>
        ensures { OpensWith threads locks conds permits.now result }
    {
        if !is_within_limits(threads, locks, conds, permits.len()) {
            return Err(CoreFault::BadLimits);
        }
        State::at_rest(alloc, threads, locks, conds, permits).map_err(|_| CoreFault::NoMemory)
    }
}
