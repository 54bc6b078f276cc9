//! What callers of a lot would else write by hand, each made of the lot's own calls: work on a locked value, waiting
//! until a value is as wanted, workers, and the end of a lot.
//!
//! It stands on `lot_sync`, and knows of a lot what its contracts say.
//!
//! | Call | Made of |
//! |---|---|
//! | `with_lock`, `with_value` | `lock`, the caller's work, `unlock` |
//! | `with_both` | the same of two locks, the lower number first |
//! | `wait_until` | `wait`, again and again |
//! | `lock_until` | `lock`, then `wait_until` |
//! | `take_all` | `take_left` for each thread |
//! | `finish` | `take_all`, then `close` |
//! | `work_all` | the caller's work with each of a list of passes, in threads |
//! | `work_together` | the same, of which one may wait for what another does |
//! | `close_with` | `close` with passes that came back from such work |
//! | `start_with_room` | `start`, and room for all passes |
//! | `start_with_passes` | `start_with_room`, and `register` for each thread |
//! | `start_counting_with_passes` | `start_counting`, and the same |
//! | `leave_all` | `leave` with each of a list of passes |
//! | `finish_with` | `leave_all`, then `finish` |
#![tactic(auto)]

mod both;
mod crew;
mod finishing;
mod together;
mod until;
mod with;
mod workers;

pub use both::with_both;
pub use crew::{close_with, work_all};
pub use finishing::{finish, take_all};
pub use together::work_together;
pub use until::{lock_until, wait_until};
pub use with::{with_lock, with_value};
pub use workers::{
    finish_with, leave_all, start_counting_with_passes, start_with_passes, start_with_room,
};
