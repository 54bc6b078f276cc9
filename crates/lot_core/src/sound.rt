//! Whether a state is sound, tested key by key.
ghost use Rattle.std.specs.Prelude.{◌≡◌, ◌↔◌, ℕ, IsTrue};

use crate::state::State;
use lot_events::Point;

#[tactic(auto)]
impl State {
    ghost use Rattle.lot_events.specs.declared.events.Point.TheVariants.{Sweeps};
    ghost use Rattle.lot_core.specs.Steps.{IsThread, IsLock, IsCond, IsSemaphore, IsTrying};
    ghost use Rattle.lot_core.specs.Parts.{semaphore_part};
    ghost use Rattle.lot_core.specs.Sound.{IsSound, Waits, IsMarked, IsSought, IsSwept, AllWant, AllWait, IsSoundLock};
    ghost use Rattle.lot_core.specs.Sound.{IsSoundCond};
    ghost use Rattle.lot_core.specs.Sound.{seeker_count, IsMarkedSemaphore, IsSoughtSemaphore, AllSeek};
    ghost use Rattle.lot_core.specs.Sound.{IsSoundSemaphore};
    ghost use Rattle.lot_core.specs.State.{state_of};

    fn someone_tries(&self, lock: usize) -> bool
        ensures { IsTrue result ↔ ((t : ℕ) ×
            IsThread (state_of self.now) t × IsTrying (state_of self.now) t lock) }
    {
        for thread in 0..self.threads {
            if self.is_trying(thread, lock) {
                return true;
            }
        }
        false
    }

    fn someone_sweeps(&self, cond: usize) -> bool
        ensures { IsTrue result ↔ ((t : ℕ) ×
            IsThread (state_of self.now) t × ((state_of self.now).point t ≡ Sweeps cond)) }
    {
        for thread in 0..self.threads {
            if self.is_sweeping(thread, cond) {
                return true;
            }
        }
        false
    }

    fn is_waiting(&self, thread: usize, cond: usize) -> bool
        ensures { IsTrue result ↔ Waits (state_of self.now).point cond thread }
    {
        match self.point(thread) {
            Point::Bed { cond: waited, .. } | Point::Rest { cond: waited, .. } => waited == cond,
            _ => false,
        }
    }

    fn do_all_want(&self, lock: usize) -> bool
        requires { IsLock (state_of self.now) lock }
        ensures { IsTrue result ↔ AllWant (state_of self.now) lock }
    {
        for place in 0..self.lock_lines.len(lock) {
            if !self.is_wanting(self.lock_lines.at(lock, place), lock) {
                return false;
            }
        }
        true
    }

    fn do_all_wait(&self, cond: usize) -> bool
        requires { IsCond (state_of self.now) cond }
        ensures { IsTrue result ↔ AllWait (state_of self.now) cond }
    {
        for place in 0..self.cond_lines.len(cond) {
            if !self.is_waiting(self.cond_lines.at(cond, place), cond) {
                return false;
            }
        }
        true
    }

    fn is_marked(&self, lock: usize) -> bool
        requires { IsLock (state_of self.now) lock }
        ensures { IsTrue result ↔ IsMarked (state_of self.now) lock }
    {
        self.is_parked(lock) || self.lock_lines.is_empty(lock)
    }

    fn is_sought(&self, lock: usize) -> bool
        requires { IsLock (state_of self.now) lock }
        ensures { IsTrue result ↔ IsSought (state_of self.now) lock }
    {
        if self.is_held(lock) || self.lock_lines.is_empty(lock) {
            return true;
        }
        self.someone_tries(lock)
    }

    fn is_swept(&self, cond: usize) -> bool
        requires { IsCond (state_of self.now) cond }
        ensures { IsTrue result ↔ IsSwept (state_of self.now) cond }
    {
        if self.flag(cond) || self.cond_lines.is_empty(cond) {
            return true;
        }
        self.someone_sweeps(cond)
    }

    fn is_sound_lock(&self, lock: usize) -> bool
        requires { IsLock (state_of self.now) lock }
        ensures { IsTrue result ↔ IsSoundLock (state_of self.now) lock }
    {
        if !self.is_marked(lock) {
            return false;
        }
        if !self.is_sought(lock) {
            return false;
        }
        self.lock_lines.is_once(lock) && self.do_all_want(lock)
    }

    fn is_sound_cond(&self, cond: usize) -> bool
        requires { IsCond (state_of self.now) cond }
        ensures { IsTrue result ↔ IsSoundCond (state_of self.now) cond }
    {
        if !self.is_swept(cond) {
            return false;
        }
        self.cond_lines.is_once(cond) && self.do_all_wait(cond)
    }

    // How many threads are seeking a permit of the semaphore.
    fn seekers(&self, sem: usize) -> usize
        requires { IsSemaphore (state_of self.now) sem }
        ensures { result ≡ seeker_count (state_of self.now).threads (semaphore_part (state_of self.now)) sem }
    {
        let mut count = 0;
        for thread in 0..self.threads {
            if self.is_seeking(thread, sem) {
                count += 1;
            }
        }
        count
    }

    fn do_all_seek(&self, sem: usize) -> bool
        requires { IsSemaphore (state_of self.now) sem }
        ensures { IsTrue result ↔ AllSeek (state_of self.now) sem }
    {
        for place in 0..self.sems.lines.len(sem) {
            if !self.seeks(self.sems.lines.at(sem, place), sem) {
                return false;
            }
        }
        true
    }

    fn is_marked_semaphore(&self, sem: usize) -> bool
        requires { IsSemaphore (state_of self.now) sem }
        ensures { IsTrue result ↔ IsMarkedSemaphore (state_of self.now) sem }
    {
        self.sems.is_parked(sem) || self.sems.lines.is_empty(sem)
    }

    fn is_sought_semaphore(&self, sem: usize) -> bool
        requires { IsSemaphore (state_of self.now) sem }
        ensures { IsTrue result ↔ IsSoughtSemaphore (state_of self.now) sem }
    {
        if self.sems.lines.is_empty(sem) {
            return true;
        }
        self.sems.left(sem) as usize <= self.seekers(sem)
    }

    fn is_sound_semaphore(&self, sem: usize) -> bool
        requires { IsSemaphore (state_of self.now) sem }
        ensures { IsTrue result ↔ IsSoundSemaphore (state_of self.now) sem }
    {
        if !self.is_marked_semaphore(sem) {
            return false;
        }
        if !self.is_sought_semaphore(sem) {
            return false;
        }
        self.sems.lines.is_once(sem) && self.do_all_seek(sem)
    }

    fn are_locks_sound(&self) -> bool
        ensures { IsTrue result ↔ ((l : ℕ) → IsSoundLock (state_of self.now) l) }
    {
        for lock in 0..self.locks {
            if !self.is_sound_lock(lock) {
                return false;
            }
        }
        true
    }

    fn are_conds_sound(&self) -> bool
        ensures { IsTrue result ↔ ((c : ℕ) → IsSoundCond (state_of self.now) c) }
    {
        for i in 0..self.conds {
            if !self.is_sound_cond(self.locks + i) {
                return false;
            }
        }
        true
    }

    fn are_semaphores_sound(&self) -> bool
        ensures { IsTrue result ↔ ((k : ℕ) → IsSoundSemaphore (state_of self.now) k) }
    {
        for i in 0..self.sems.len() {
            if !self.is_sound_semaphore(self.sems.key(i)) {
                return false;
            }
        }
        true
    }

    /// Whether the state is sound: one owner for each lock, sleepers are marked, someone is trying
    /// where a free lock has sleepers, someone sweeps where a clear flag has some, permits are
    /// conserved, and sought where a semaphore has sleepers, no thread is in two lines or twice in
    /// one, and who is in a line is a thread of the state.
    ///
    /// Every state that [`open`](State::open) and [`step`](State::step) can make is sound
    /// ([`every_event_keeps_soundness`](crate::every_event_keeps_soundness)): a test may ask, a
    /// program need not.
    pub fn is_sound(&self) -> bool
        ensures { IsTrue result ↔ IsSound (state_of self.now) }
    {
        if !self.are_locks_sound() {
            return false;
        }
        if !self.are_conds_sound() {
            return false;
        }
        self.are_semaphores_sound()
    }
}
