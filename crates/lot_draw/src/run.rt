//! A run as it is seen: from its events and what their threads saw of them.

use crate::marks::{Arrow, Bar, Dot, Right, Stand, Told};
use lot_core::{Event, Point};
use std::alloc::{AllocError, Global};

mod events;
mod lane;

use lane::Lane;

/// The bars, dots and arrows of a run, and how its threads stand at its end.
#[derive(Debug, Drop)]
pub struct Run {
    lanes: Vec<Lane>,
    /// Who is in a line, of whatever key, first come first.
    sleepers: Vec<usize>,
    pub bars: Vec<Bar>,
    pub dots: Vec<Dot>,
    pub arrows: Vec<Arrow>,
}

/// The thread that makes the event.
fn thread_of(event: Event) -> usize {
    match event {
        Event::Try { thread, .. }
        | Event::Take { thread, .. }
        | Event::Mark { thread, .. }
        | Event::Park { thread, .. }
        | Event::Free { thread, .. }
        | Event::Pass { thread, .. }
        | Event::Enlist { thread, .. }
        | Event::Look { thread, .. }
        | Event::Call { thread, .. }
        | Event::Lower { thread, .. }
        | Event::Sweep { thread, .. }
        | Event::SemTake { thread, .. }
        | Event::SemMark { thread, .. }
        | Event::SemPark { thread, .. }
        | Event::SemFree { thread, .. }
        | Event::SemPass { thread, .. }
        | Event::SemClear { thread, .. } => thread,
    }
}

// What is asked of a run.
impl Run {
    /// A run of so many threads in which nothing has happened.
    pub fn new(alloc: Global, threads: usize) -> Result<Run, AllocError> {
        let mut lanes = Vec::new(alloc);
        for _ in 0..threads {
            lanes.push(Lane::new(alloc))?;
        }
        Ok(Run {
            lanes,
            sleepers: Vec::new(alloc),
            bars: Vec::new(alloc),
            dots: Vec::new(alloc),
            arrows: Vec::new(alloc),
        })
    }

    /// How many rows the thread's lane has: one for where it stands, and one or more for what it has.
    pub fn rows(&self, thread: usize) -> usize {
        match self.lanes.get(thread) {
            Some(lane) => lane.rights.len().max(1).saturating_add(1),
            None => 2,
        }
    }

    /// Where the thread stands.
    pub fn stand_of(&self, thread: usize) -> Option<Stand> {
        Some(self.lanes.get(thread)?.stand)
    }

    /// Something that the thread has.
    fn right_of(&self, thread: usize) -> Option<Right> {
        self.lanes.get(thread)?.first_right()
    }

    fn line_of(&self, thread: usize) -> Option<usize> {
        self.stand_of(thread)?.line()
    }

    fn first_in_line(&self, key: usize) -> Option<usize> {
        self.sleepers
            .iter()
            .copied()
            .find(|thread| self.line_of(*thread) == Some(key))
    }
}

// What happens in a lane.
impl Run {
    /// From this event on the thread stands so.
    fn stand(&mut self, event: usize, thread: usize, stand: Stand) -> Result<(), AllocError> {
        if let Some(lane) = self.lanes.get_mut(thread)
            && let Some((told, from)) = lane.stand(event, stand)
        {
            self.bars.push(Bar {
                thread,
                row: 0,
                told,
                from,
                to: event,
            })?;
        }
        Ok(())
    }

    fn move_to(&mut self, event: usize, thread: usize, point: Point) -> Result<(), AllocError> {
        let is_queued = false;
        self.stand(event, thread, Stand { point, is_queued })
    }

    fn gain(&mut self, event: usize, thread: usize, right: Right) -> Result<(), AllocError> {
        if let Some(lane) = self.lanes.get_mut(thread) {
            lane.gain(event, right)?;
        }
        self.move_to(event, thread, Point::Calm)
    }

    fn lose(&mut self, event: usize, thread: usize, right: Right) -> Result<(), AllocError> {
        if let Some(lane) = self.lanes.get_mut(thread)
            && let Some((row, from)) = lane.lose(right)
        {
            let told = Told::Has(right);
            let to = event;
            self.bars.push(Bar {
                thread,
                row,
                told,
                from,
                to,
            })?;
        }
        Ok(())
    }
}
