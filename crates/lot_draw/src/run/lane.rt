//! One thread's lane: where it stands and what it has, each since some event.
ghost use Rattle.std.specs.Prelude.{◌≡◌};

use crate::marks::{Right, Stand, Told};
use lot_core::Point;
use std::alloc::{AllocError, Global};

/// Where the thread stands, and what it has.
#[derive(Debug, Drop)]
pub struct Lane {
    pub stand: Stand,
    since: usize,
    /// A right stays in its row as long as the thread has it.
    pub rights: Vec<Option<(Right, usize)>>,
}

impl Lane {
    /// A calm thread that has nothing.
    pub fn new(alloc: Global) -> Lane {
        Lane {
            stand: Stand {
                point: Point::Calm,
                is_queued: false,
            },
            since: 0,
            rights: Vec::new(alloc),
        }
    }

    /// Moves the thread. The answer is what is over with this event, and since when it was; a calm thread has nothing
    /// to tell, and what came with this very event neither.
    pub fn stand(&mut self, event: usize, stand: Stand) -> Option<(Told, usize)>
        ensures stand { self.new.stand ≡ stand }
        ensures rights { self.new.rights ≡ self.old.rights }
    {
        if self.stand == stand {
            return None;
        }
        let before = self.stand;
        let since = self.since;
        self.stand = stand;
        self.since = event;
        if before.point == Point::Calm || since == event {
            return None;
        }
        Some((Told::Stands(before), since))
    }

    /// Puts the right into the first free row.
    pub fn gain(&mut self, event: usize, right: Right) -> Result<(), AllocError> {
        for row in self.rights.iter_mut() {
            if row.is_none() {
                *row = Some((right, event));
                return Ok(());
            }
        }
        self.rights.push(Some((right, event)))?;
        Ok(())
    }

    /// Takes the right out, and answers its row of the lane and since when the thread had it.
    pub fn lose(&mut self, right: Right) -> Option<(usize, usize)> {
        let mut number: usize = 0;
        for row in self.rights.iter_mut() {
            number = number.saturating_add(1);
            if let Some((had, since)) = *row
                && had == right
            {
                *row = None;
                return Some((number, since));
            }
        }
        None
    }

    /// What stands in the first row that is taken.
    pub fn first_right(&self) -> Option<Right> {
        for row in self.rights.iter() {
            if let Some((right, _)) = *row {
                return Some(right);
            }
        }
        None
    }
}
