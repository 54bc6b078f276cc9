//! Where on the picture things stand, in its units.
ghost use Rattle.lot_draw.specs.declared.layout.TheConstants.{BAR};
ghost use Rattle.std.specs.Prelude.{◌≤◌, ◌+◌};

use crate::run::Run;
use lot_core::Script;
use std::alloc::{AllocError, Global};

/// The height of a bar.
pub const BAR: usize = 16;

/// From the upper edge of a row to that of the next.
const ROW: usize = 20;

/// Above the first row of a lane, and below its last one.
const PAD: usize = 7;

/// Left of the first column stand the names of the lanes.
const LEFT: usize = 40;

/// Above the first lane stand the labels of the columns.
const TOP: usize = 56;

/// Right of the last column.
const RIGHT: usize = 16;

/// Below the last lane stands what the marks mean.
const BOTTOM: usize = 64;

/// The picture is at least as wide as what stands below the lanes.
const LEAST_WIDTH: usize = 560;

/// The width of a column in which each label has room, but for the digits of a key.
const NARROWEST: usize = 58;

/// The width of a digit.
const DIGIT: usize = 6;

/// The columns and lanes of a picture, and how large it is.
#[derive(Debug, Drop)]
pub struct Layout {
    /// From the left edge of a column to that of the next.
    step: usize,
    /// The upper edge of each lane.
    tops: Vec<usize>,
    /// The lower edge of the last lane.
    pub floor: usize,
    pub width: usize,
    pub height: usize,
    ghost tall: { BAR ≤ height },
}

/// How many digits the number of a key has.
fn digits(number: usize) -> usize
    ensures { result ≤ 4 }
{
    match number {
        0..=9 => 1,
        10..=99 => 2,
        100..=999 => 3,
        _ => 4,
    }
}

/// The height of a lane with so many rows.
fn lane_height(rows: usize) -> usize {
    ROW.saturating_mul(rows).saturating_add(2 * PAD)
}

impl Layout {
    /// The layout of this run of this script.
    pub fn new(alloc: Global, script: &Script, run: &Run) -> Result<Layout, AllocError> {
        let mut tops = Vec::new(alloc);
        let mut floor = TOP;
        for thread in 0..script.threads {
            tops.push(floor)?;
            floor = floor.saturating_add(lane_height(run.rows(thread)));
        }
        let keys = script
            .locks
            .saturating_add(script.conds)
            .saturating_add(script.permits.len());
        let step = NARROWEST + DIGIT * digits(keys.saturating_sub(1));
        let columns = step.saturating_mul(script.events.len());
        Ok(Layout {
            step,
            tops,
            floor,
            width: columns.saturating_add(LEFT + RIGHT).max(LEAST_WIDTH),
            height: floor.saturating_add(BOTTOM),
        })
    }

    /// The middle of the event's column, which is inside the picture.
    pub fn middle(&self, event: usize) -> usize
        ensures { result ≤ self.now.width }
    {
        self.step
            .saturating_mul(event)
            .saturating_add(LEFT + self.step / 2)
            .min(self.width)
    }

    /// The left edge and the width of a bar from one event to another, which is inside the picture.
    pub fn span(&self, from: usize, to: usize) -> (usize, usize)
        ensures { result.0 + result.1 ≤ self.now.width }
    {
        let left = self.middle(from);
        (left, self.middle(to).saturating_sub(left))
    }

    /// The upper edge of the thread's lane, which is inside the picture.
    pub fn lane(&self, thread: usize) -> usize
        ensures { result ≤ self.now.height }
    {
        match self.tops.get(thread) {
            Some(top) => (*top).min(self.height),
            None => self.floor.min(self.height),
        }
    }

    /// The upper edge of a bar in this row of the thread's lane. The bar is inside the picture.
    pub fn row(&self, thread: usize, row: usize) -> usize
        ensures { result + BAR ≤ self.now.height }
    {
        self.lane(thread)
            .saturating_add(PAD)
            .saturating_add(ROW.saturating_mul(row))
            .min(self.height - BAR)
    }

    /// Between where the thread stands and what it has, where the dots of its events are.
    pub fn dot(&self, thread: usize) -> usize
        ensures { result ≤ self.now.height }
    {
        self.lane(thread)
            .saturating_add(PAD + BAR + (ROW - BAR) / 2)
            .min(self.height)
    }
}
