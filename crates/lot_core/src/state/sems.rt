//! The semaphores of a state, where each of their events is allowed, and the events.
ghost use Rattle.std.specs.Prelude.{◌≡◌, ◌↔◌, IsTrue};
ghost use Rattle.lot_events.specs.declared.events.Point.TheVariants.{Seeks};
ghost use Rattle.lot_events.specs.declared.events.Event.TheVariants as Event;
ghost use Rattle.lot_core.specs.declared.state.CoreFault.TheVariants.{NoMemory};

use crate::state::{CoreFault, State};
use lot_events::{Point, Seen};

// Where each event is allowed.
#[tactic(auto)]
impl State {
    ghost use Rattle.lot_core.specs.Steps.{IsThread, IsSemaphore, IsSeeking, Allowed};
    ghost use Rattle.lot_core.specs.State.{state_of};

    fn is_at_semaphore(&self, thread: usize, sem: usize) -> bool
        ensures { IsTrue result ↔ (IsThread (state_of self.now) thread × IsSemaphore (state_of self.now) sem) }
    {
        self.is_thread(thread) && self.sems.has(sem)
    }

    pub(crate) fn seeks(&self, thread: usize, sem: usize) -> bool
        ensures { IsTrue result ↔ ((state_of self.now).point thread ≡ Seeks sem) }
    {
        match self.point(thread) {
            Point::Seeks { sem: sought } => sought == sem,
            _ => false,
        }
    }

    pub(crate) fn is_seeking(&self, thread: usize, sem: usize) -> bool
        ensures { IsTrue result ↔ IsSeeking (state_of self.now) thread sem }
    {
        self.seeks(thread, sem) && !self.sems.lines.contains(sem, thread)
    }

    fn may_sem_take(&self, thread: usize, sem: usize) -> bool
        ensures { IsTrue result ↔ Allowed (state_of self.now) (Event.SemTake thread sem) }
    {
        self.is_at_semaphore(thread, sem) && (self.is_calm(thread) || self.is_seeking(thread, sem))
    }

    fn may_sem_mark(&self, thread: usize, sem: usize) -> bool
        ensures { IsTrue result ↔ Allowed (state_of self.now) (Event.SemMark thread sem) }
    {
        self.may_sem_park(thread, sem) && self.sems.left(sem) == 0
    }

    fn may_sem_park(&self, thread: usize, sem: usize) -> bool
        ensures { IsTrue result ↔ Allowed (state_of self.now) (Event.SemPark thread sem) }
    {
        self.is_at_semaphore(thread, sem) && self.is_seeking(thread, sem)
    }

    fn may_sem_free(&self, thread: usize, sem: usize) -> bool
        ensures { IsTrue result ↔ Allowed (state_of self.now) (Event.SemFree thread sem) }
    {
        if !self.is_at_semaphore(thread, sem) {
            return false;
        }
        self.is_calm(thread) && self.sems.out_with(sem, thread) >= 1
    }

    fn may_sem_pass(&self, thread: usize, sem: usize, more: bool) -> bool
        ensures { IsTrue result ↔ Allowed (state_of self.now) (Event.SemPass thread sem more) }
    {
        self.may_sem_free(thread, sem) && (more || self.sems.lines.len(sem) < 2)
    }

    fn may_sem_clear(&self, thread: usize, sem: usize) -> bool
        ensures { IsTrue result ↔ Allowed (state_of self.now) (Event.SemClear thread sem) }
    {
        if !self.is_at_semaphore(thread, sem) {
            return false;
        }
        self.is_calm(thread) && self.sems.lines.is_empty(sem)
    }
}

// The events.
#[tactic(auto)]
impl State {
    ghost use Rattle.lot_core.specs.State.{state_of, Answers};

    pub(super) fn sem_take(&mut self, thread: usize, sem: usize) -> Result<Seen, CoreFault>
        ensures { Answers (state_of self.old) (Event.SemTake thread sem) result (state_of self.new) }
    {
        if !self.may_sem_take(thread, sem) {
            return Err(CoreFault::NotEnabled);
        }
        let got = self.sems.take(thread, sem);
        let point = if got {
            Point::Calm
        } else {
            Point::Seeks { sem }
        };
        self.set_point(thread, point);
        Ok(Seen::Bool(got))
    }

    pub(super) fn sem_mark(&mut self, thread: usize, sem: usize) -> Result<Seen, CoreFault>
        ensures { Answers (state_of self.old) (Event.SemMark thread sem) result (state_of self.new) }
    {
        if !self.may_sem_mark(thread, sem) {
            return Err(CoreFault::NotEnabled);
        }
        self.sems.set_parked(sem, true);
        Ok(Seen::Done)
    }

    pub(super) fn sem_park(&mut self, thread: usize, sem: usize) -> Result<Seen, CoreFault>
        ensures { Answers (state_of self.old) (Event.SemPark thread sem) result (state_of self.new) }
    {
        if !self.may_sem_park(thread, sem) {
            return Err(CoreFault::NotEnabled);
        }
        if self.sems.left(sem) != 0 || !self.sems.is_parked(sem) {
            return Ok(Seen::Bool(false));
        }
        match self.sems.join(sem, thread) {
            Ok(()) => Ok(Seen::Bool(true)),
            Err(_) => Err(CoreFault::NoMemory),
        }
    }

    pub(super) fn sem_free(&mut self, thread: usize, sem: usize) -> Result<Seen, CoreFault>
        ensures { Answers (state_of self.old) (Event.SemFree thread sem) result (state_of self.new) }
    {
        if !self.may_sem_free(thread, sem) {
            return Err(CoreFault::NotEnabled);
        }
        if self.sems.is_parked(sem) {
            return Ok(Seen::Bool(false));
        }
        self.sems.give(thread, sem);
        Ok(Seen::Bool(true))
    }

    pub(super) fn sem_pass(
        &mut self,
        thread: usize,
        sem: usize,
        more: bool,
    ) -> Result<Seen, CoreFault>
        ensures { Answers (state_of self.old) (Event.SemPass thread sem more) result (state_of self.new) }
    {
        if !self.may_sem_pass(thread, sem, more) {
            return Err(CoreFault::NotEnabled);
        }
        Ok(Seen::Sleeper(self.sems.pass(thread, sem, more)))
    }

    pub(super) fn sem_clear(&mut self, thread: usize, sem: usize) -> Result<Seen, CoreFault>
        ensures { Answers (state_of self.old) (Event.SemClear thread sem) result (state_of self.new) }
    {
        if !self.may_sem_clear(thread, sem) {
            return Err(CoreFault::NotEnabled);
        }
        self.sems.set_parked(sem, false);
        Ok(Seen::Done)
    }
}
