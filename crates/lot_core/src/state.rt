//! A state of the model, and the events that change it.
ghost use Rattle.std.specs.Prelude.{◌≡◌, ◌+◌, ◌↔◌, length, IsTrue, IfErr, OnOk};
ghost use Rattle.lot_core.specs.Lines.{key_count};
ghost use Rattle.lot_events.specs.declared.events.Point.TheVariants.{Calm};

use crate::lines::Lines;
use crate::semaphores::Semaphores;
use lot_events::{Event, Point, Seen};
use thiserror::Error;

mod conds;
mod locks;
mod opening;
mod sems;

/// The greatest number of threads, and of those that one [`Event::Call`] takes.
pub const MAX_THREADS: usize = 256;

/// The greatest number of locks, conditions and semaphores together.
pub const MAX_KEYS: usize = 1024;

/// Why a call on a [`State`] was refused.
#[derive(Clone, Copy, Debug, PartialEq, Eq, Error)]
pub enum CoreFault {
    /// The numbers of threads, locks, conditions and semaphores are not within the limits.
    #[error("bad limits")]
    BadLimits = 1,
    /// Memory was wanted and not had.
    #[error("no memory")]
    NoMemory = 2,
    /// The event is not allowed in this state.
    #[error("the event is not allowed")]
    NotEnabled = 3,
}

/// A state of the model: who has each lock, its parked bit, each condition's flag, the permits and
/// the parked bit of each semaphore, the line of each key, and where each thread stands.
///
/// A lock is held exactly where it has an owner, so a `State` has at most one owner for each lock
/// by its very shape; nor can it lose or make a permit.
#[derive(Debug, Drop)]
pub struct State {
    pub(crate) threads: usize,
    pub(crate) locks: usize,
    pub(crate) conds: usize,
    owners: Vec<Option<usize>>,
    parked: Vec<bool>,
    pub(crate) lock_lines: Lines,
    flags: Vec<bool>,
    pub(crate) cond_lines: Lines,
    pub(crate) sems: Semaphores,
    points: Vec<Point>,
    ghost owner_each: { length owners.items ≡ locks },
    ghost parked_each: { length parked.items ≡ locks },
    ghost lock_line_each: { (lock_lines.low ≡ 0) × (key_count lock_lines ≡ locks) },
    ghost flag_each: { length flags.items ≡ conds },
    ghost cond_line_each: { (cond_lines.low ≡ locks) × (key_count cond_lines ≡ conds) },
    ghost sem_each: { (sems.first_sem ≡ locks + conds) × (sems.threads ≡ threads) },
    ghost point_each: { length points.items ≡ threads },
}

#[tactic(auto, using(crate::proofs::Rows::row_laws))]
impl State {
    ghost use Rattle.lot_core.specs.Steps.{IsThread, MayLetGo, let_go};
    ghost use Rattle.lot_core.specs.State.{state_of, with_point};

    pub(crate) fn is_thread(&self, thread: usize) -> bool
        ensures { IsTrue result ↔ IsThread (state_of self.now) thread }
    {
        thread < self.threads
    }

    // Whoever is none of the state's threads is calm.
    pub(crate) fn point(&self, thread: usize) -> Point
        ensures { (state_of self.now).point thread ≡ result }
    {
        if !self.is_thread(thread) {
            return Point::Calm;
        }
        self.points[thread]
    }

    fn set_point(&mut self, thread: usize, point: Point)
        requires { IsThread (state_of self.old) thread }
        ensures { state_of self.new ≡ with_point (state_of self.old) thread point }
    {
        self.points[thread] = point;
    }

    fn let_go(&mut self, thread: usize)
        requires { IsThread (state_of self.old) thread }
        ensures { state_of self.new ≡
            record (state_of self.old) { point = let_go (state_of self.old).point thread } }
    {
        let point = match self.point(thread) {
            Point::Bed { cond, lock } => Point::Rest { cond, lock },
            point => point,
        };
        self.set_point(thread, point);
    }

    // A thread that is none of the state's has no point to change.
    fn calm(&mut self, thread: usize)
        ensures { state_of self.new ≡ with_point (state_of self.old) thread Calm }
    {
        if self.is_thread(thread) {
            self.set_point(thread, Point::Calm);
        }
    }

    fn is_calm(&self, thread: usize) -> bool
        ensures { IsTrue result ↔ ((state_of self.now).point thread ≡ Calm) }
    {
        match self.point(thread) {
            Point::Calm => true,
            _ => false,
        }
    }

    fn may_let_go(&self, thread: usize, lock: usize) -> bool
        ensures { IsTrue result ↔ MayLetGo (state_of self.now) thread lock }
    {
        match self.point(thread) {
            Point::Calm => true,
            Point::Bed { lock: owned, .. } => owned == lock,
            _ => false,
        }
    }
}

#[tactic(auto)]
impl State {
    ghost use Rattle.lot_core.specs.Steps.{Run, after_all};
    ghost use Rattle.lot_core.specs.State.{state_of, Answers, StopsAt};

    /// Makes the event, and says what its thread sees of it.
    ///
    /// It answers NotEnabled exactly where the event is not allowed, also for a thread or key out
    /// of range, and NoMemory where a line could not take one thread more, which only an `Enlist`
    /// asks of it, and a `Park` or `SemPark` that queues its thread. After either the state is as it
    /// was.
    pub fn step(&mut self, e: Event) -> Result<Seen, CoreFault>
        ensures { Answers (state_of self.old) e result (state_of self.new) }
    {
        match e {
            Event::Try { thread, key } => self.try_take(thread, key),
            Event::Take { thread, key } => self.take(thread, key),
            Event::Mark { thread, key } => self.mark(thread, key),
            Event::Park { thread, key } => self.park(thread, key),
            Event::Free { thread, key } => self.free(thread, key),
            Event::Pass {
                thread,
                key,
                fair,
                more,
            } => self.pass(thread, key, fair, more),
            Event::Enlist { thread, key, lock } => self.enlist(thread, key, lock),
            Event::Look { thread, key } => self.look(thread, key),
            Event::Call {
                thread,
                key,
                count,
                more,
            } => self.call(thread, key, count, more),
            Event::Lower { thread, key } => self.lower(thread, key),
            Event::Sweep { thread, key } => self.sweep(thread, key),
            Event::SemTake { thread, key } => self.sem_take(thread, key),
            Event::SemMark { thread, key } => self.sem_mark(thread, key),
            Event::SemPark { thread, key } => self.sem_park(thread, key),
            Event::SemFree { thread, key } => self.sem_free(thread, key),
            Event::SemPass { thread, key, more } => self.sem_pass(thread, key, more),
            Event::SemClear { thread, key } => self.sem_clear(thread, key),
        }
    }

    /// Makes the events in order, up to the first that [`step`](State::step) refuses.
    ///
    /// The answer is then that event's number, counted from 0, and the fault; the state is that
    /// after the events before it.
    pub fn run(&mut self, events: &[Event]) -> Result<(), (usize, CoreFault)>
        ensures ok { OnOk result (Run (state_of self.old) events.now × (state_of self.new ≡
            after_all (state_of self.old) events.now)) }
        ensures err { IfErr result (λ e. StopsAt (state_of self.old) events.now e.0 e.1 (state_of self.new)) }
    {
        for (i, e) in events.iter().enumerate() {
            match self.step(*e) {
                Ok(_) => {}
                Err(fault) => return Err((i, fault)),
            }
        }
        Ok(())
    }
}
