//! What each event shows.

use crate::marks::{Arrow, Dot, Right, Stand};
use crate::run::{Run, thread_of};
use lot_core::{Event, Point, Seen};
use std::alloc::AllocError;

// Lines, and what a release leaves.
impl Run {
    fn queue(&mut self, event: usize, thread: usize, point: Point) -> Result<(), AllocError> {
        self.sleepers.push(thread)?;
        let is_queued = true;
        self.stand(event, thread, Stand { point, is_queued })
    }

    /// A thread that lets its lock go stays at its bed no longer: it rests.
    fn let_go(&mut self, event: usize, thread: usize, lock: usize) -> Result<(), AllocError> {
        self.lose(event, thread, Right::Lock { lock })?;
        match self.stand_of(thread) {
            Some(
                Stand {
                    point: Point::Bed { cond, lock },
                    is_queued,
                },
            ) => {
                let point = Point::Rest { cond, lock };
                self.stand(event, thread, Stand { point, is_queued })
            }
            _ => Ok(()),
        }
    }

    /// Takes the sleeper from its line.
    fn wake(&mut self, event: usize, thread: usize, sleeper: usize) -> Result<(), AllocError> {
        self.sleepers.retain(|queued| *queued != sleeper);
        self.arrows.push(Arrow {
            event,
            from: thread,
            to: sleeper,
        })?;
        match self.stand_of(sleeper) {
            Some(stand) => self.move_to(event, sleeper, stand.point),
            None => Ok(()),
        }
    }

    fn wake_first(
        &mut self,
        event: usize,
        thread: usize,
        key: usize,
        seen: Seen,
    ) -> Result<(), AllocError> {
        let Seen::Count(count) = seen else {
            return Ok(());
        };
        for _ in 0..count {
            match self.first_in_line(key) {
                Some(sleeper) => self.wake(event, thread, sleeper)?,
                None => return Ok(()),
            }
        }
        Ok(())
    }

    fn pass(
        &mut self,
        event: usize,
        thread: usize,
        lock: usize,
        is_fair: bool,
        seen: Seen,
    ) -> Result<(), AllocError> {
        self.let_go(event, thread, lock)?;
        let Seen::Sleeper(Some(next)) = seen else {
            return Ok(());
        };
        self.wake(event, thread, next)?;
        if is_fair {
            return self.gain(event, next, Right::Lock { lock });
        }
        Ok(())
    }

    fn pass_permit(
        &mut self,
        event: usize,
        thread: usize,
        sem: usize,
        seen: Seen,
    ) -> Result<(), AllocError> {
        self.lose(event, thread, Right::Permit { sem })?;
        match seen {
            Seen::Sleeper(Some(next)) => self.wake(event, thread, next),
            _ => Ok(()),
        }
    }
}

// The events, by what they saw.
impl Run {
    /// Takes in one event more, with what its thread saw of it.
    pub fn see(&mut self, event: Event, seen: Seen) -> Result<(), AllocError> {
        let number = self.dots.len();
        let is_hollow = seen == Seen::Bool(false);
        self.dots.push(Dot {
            thread: thread_of(event),
            is_hollow,
        })?;
        if is_hollow {
            return self.see_in_vain(number, event);
        }
        self.see_done(number, event, seen)
    }

    /// Who asked for a lock or a permit in vain wants it from then on.
    fn see_in_vain(&mut self, number: usize, event: Event) -> Result<(), AllocError> {
        match event {
            Event::Take { thread, key } => {
                self.move_to(number, thread, Point::Wants { lock: key })
            }
            Event::SemTake { thread, key } => {
                self.move_to(number, thread, Point::Seeks { sem: key })
            }
            _ => Ok(()),
        }
    }

    fn see_done(&mut self, number: usize, event: Event, seen: Seen) -> Result<(), AllocError> {
        match event {
            Event::Try { thread, key } | Event::Take { thread, key } => {
                self.gain(number, thread, Right::Lock { lock: key })
            }
            Event::Park { thread, key } => self.queue(number, thread, Point::Wants { lock: key }),
            Event::Free { thread, key } => self.let_go(number, thread, key),
            Event::Pass {
                thread,
                key,
                fair,
                ..
            } => self.pass(number, thread, key, fair, seen),
            Event::Enlist { thread, key, lock } => {
                self.queue(number, thread, Point::Bed { cond: key, lock })
            }
            Event::Call { thread, key, .. } => self.wake_first(number, thread, key, seen),
            Event::Lower { thread, key } => {
                self.move_to(number, thread, Point::Sweeps { cond: key })
            }
            Event::Sweep { thread, key } => {
                self.wake_first(number, thread, key, seen)?;
                self.move_to(number, thread, Point::Calm)
            }
            _ => self.see_semaphore(number, event, seen),
        }
    }

    fn see_semaphore(&mut self, number: usize, event: Event, seen: Seen) -> Result<(), AllocError> {
        match event {
            Event::SemTake { thread, key } => {
                self.gain(number, thread, Right::Permit { sem: key })
            }
            Event::SemPark { thread, key } => {
                self.queue(number, thread, Point::Seeks { sem: key })
            }
            Event::SemFree { thread, key } => {
                self.lose(number, thread, Right::Permit { sem: key })
            }
            Event::SemPass { thread, key, .. } => self.pass_permit(number, thread, key, seen),
            _ => Ok(()),
        }
    }

    /// Ends each bar that is still open: the run is over.
    pub fn end(&mut self) -> Result<(), AllocError> {
        let number = self.dots.len();
        for thread in 0..self.lanes.len() {
            self.end_lane(number, thread)?;
        }
        Ok(())
    }

    fn end_lane(&mut self, number: usize, thread: usize) -> Result<(), AllocError> {
        for _ in 0..self.rows(thread) {
            if let Some(right) = self.right_of(thread) {
                self.lose(number, thread, right)?;
            }
        }
        self.move_to(number, thread, Point::Calm)
    }
}
