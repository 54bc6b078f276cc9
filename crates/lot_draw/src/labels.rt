//! Events and bars in words: what an event's column and a bar are labelled with.

use crate::marks::{Right, Stand, Told};
use lot_core::{Event, Point};
use std::alloc::AllocError;

/// The word of the event's line in a script.
pub fn word(event: Event) -> &'static str {
    match event {
        Event::Try { .. } => "try",
        Event::Take { .. } => "take",
        Event::Mark { .. } => "mark",
        Event::Park { .. } => "park",
        Event::Free { .. } => "free",
        Event::Pass { .. } => "pass",
        Event::Enlist { .. } => "enlist",
        Event::Look { .. } => "look",
        Event::Call { count: 1, .. } => "call",
        Event::Call { .. } => "some",
        Event::Lower { .. } => "lower",
        Event::Sweep { .. } => "sweep",
        Event::SemTake { .. } => "stake",
        Event::SemMark { .. } => "smark",
        Event::SemPark { .. } => "spark",
        Event::SemFree { .. } => "sfree",
        Event::SemPass { .. } => "spass",
        Event::SemClear { .. } => "sclear",
    }
}

/// The numbers of the event's line in a script.
pub fn push_numbers(out: &mut String, event: Event) -> Result<(), AllocError> {
    match event {
        Event::Try { thread, key }
        | Event::Take { thread, key }
        | Event::Mark { thread, key }
        | Event::Park { thread, key }
        | Event::Free { thread, key }
        | Event::Look { thread, key }
        | Event::Lower { thread, key }
        | Event::Sweep { thread, key }
        | Event::SemTake { thread, key }
        | Event::SemMark { thread, key }
        | Event::SemPark { thread, key }
        | Event::SemFree { thread, key }
        | Event::SemClear { thread, key } => write!(out, "{thread} {key}"),
        Event::Pass {
            thread,
            key,
            fair,
            more,
        } => {
            let fair = u8::from(fair);
            let more = u8::from(more);
            write!(out, "{thread} {key} {fair} {more}")
        }
        Event::Enlist { thread, key, lock } => write!(out, "{thread} {key} {lock}"),
        Event::Call {
            thread,
            key,
            count,
            more,
        } => push_call(out, thread, key, count, u8::from(more)),
        Event::SemPass { thread, key, more } => {
            let more = u8::from(more);
            write!(out, "{thread} {key} {more}")
        }
    }
}

fn push_call(
    out: &mut String,
    thread: usize,
    key: usize,
    count: usize,
    more: u8,
) -> Result<(), AllocError> {
    if count == 1 {
        return write!(out, "{thread} {key} {more}");
    }
    write!(out, "{thread} {key} {count} {more}")
}

/// What stands in the bar, and the key by which it is coloured.
pub fn label(told: Told) -> (&'static str, usize) {
    match told {
        Told::Has(Right::Lock { lock }) => ("lock", lock),
        Told::Has(Right::Permit { sem }) => ("sem", sem),
        Told::Stands(stand) => label_of_stand(stand),
    }
}

fn label_of_stand(stand: Stand) -> (&'static str, usize) {
    match stand.point {
        Point::Calm => ("calm", 0),
        Point::Wants { lock } if stand.is_queued => ("line", lock),
        Point::Wants { lock } => ("tries", lock),
        Point::Bed { cond, .. } => ("bed", cond),
        Point::Rest { cond, .. } if stand.is_queued => ("rest", cond),
        Point::Rest { lock, .. } => ("tries", lock),
        Point::Sweeps { cond } => ("sweeps", cond),
        Point::Seeks { sem } if stand.is_queued => ("line", sem),
        Point::Seeks { sem } => ("seeks", sem),
    }
}
