//! Permits of counting semaphores over a parking lot, made as WTF's `Lock` is.
//!
//! It stands on lot_scheme (the words, passes and roots of a lot), on lot_seeking, whose loop gets a permit, and on
//! lot_park (queues and sleep). It is the sibling of lot_locks and of lot_waits.
//!
//! | Call | Where a permit is left, or nobody waits | Else |
//! |---|---|---|
//! | `try_acquire` | a load and one compare-exchange | a load finds none, or the exchange fails: nothing is done |
//! | `acquire` | a load and one compare-exchange | up to 40 yields, then a sleep in the line; then it tries again |
//! | `release` | a load and one compare-exchange | the first of the line is woken, and may try for the permit |
//!
//! A permit is not handed over: a thread that comes while a sleeper wakes may get it first, and the sleeper tries
//! again. Permits are conserved: of each semaphore, those that are left and those that are out are together as many as
//! at the opening, so two threads never hold more than that (`check_permits`).
//!
//! Each call says how the pass stands then, and which accesses were made with it (`specs/Tries`, `specs/Seeking`,
//! `specs/Freed`).
#![tactic(auto)]

pub mod calls;
mod getting;
pub mod permit;
mod releasing;
pub mod steps;

pub use calls::{acquire, check_permits, permits_left, release, try_acquire};
pub use permit::{Freed, Permit, Tried};
pub use steps::{SemSteps, Sems};
