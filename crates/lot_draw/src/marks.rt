//! What is drawn of a run: bars in the lanes, a dot for each event, and arrows from lane to lane.

use lot_core::Point;

/// Where a thread stands.
#[derive(Clone, Copy, Debug, PartialEq, Eq)]
pub struct Stand {
    pub point: Point,
    /// Whether it is in the line of the key that its point names first.
    pub is_queued: bool,
}

impl Stand {
    /// The key in whose line it is.
    pub fn line(self) -> Option<usize> {
        if !self.is_queued {
            return None;
        }
        match self.point {
            Point::Wants { lock } => Some(lock),
            Point::Bed { cond, .. } | Point::Rest { cond, .. } => Some(cond),
            Point::Seeks { sem } => Some(sem),
            Point::Calm | Point::Sweeps { .. } => None,
        }
    }
}

/// What a thread has of a key.
#[derive(Clone, Copy, Debug, PartialEq, Eq)]
pub enum Right {
    Lock { lock: usize },
    Permit { sem: usize },
}

/// What a bar tells of its thread.
#[derive(Clone, Copy, Debug, PartialEq, Eq)]
pub enum Told {
    Stands(Stand),
    Has(Right),
}

/// A bar, from one event to another. Events are counted from 0, and the end of the run is one more event.
#[derive(Clone, Copy, Debug, PartialEq, Eq)]
pub struct Bar {
    pub thread: usize,
    /// The row of its lane: 0 for where the thread stands, the others for what it has.
    pub row: usize,
    pub told: Told,
    pub from: usize,
    pub to: usize,
}

/// An event, in the lane of its thread.
#[derive(Clone, Copy, Debug, PartialEq, Eq)]
pub struct Dot {
    pub thread: usize,
    /// Whether the thread saw that it did not get what it asked for.
    pub is_hollow: bool,
}

/// By this event one thread took another from a line.
#[derive(Clone, Copy, Debug, PartialEq, Eq)]
pub struct Arrow {
    pub event: usize,
    pub from: usize,
    pub to: usize,
}
