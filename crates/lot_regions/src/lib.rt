//! Regions: work on the value of a lock after which nobody who could go on is left waiting for a condition. An `impl`
//! of [`Ready`] says once which conditions a lock has and when whoever waits on one may go on. [`change`] works on the
//! value, and [`when`] waits for a condition first; both let the lock go and then notify each condition for which the
//! value is ready. So a notification can't be forgotten, as it can where each caller writes its own.
//!
//! Why that is enough is a law over the model ([`no_notification_is_forgotten`]): where a value is ready for a
//! condition and somebody waits on it, a thread that does not wait there is to see to it, in every state of every run
//! in which each thread, before all else, makes the notifications that it owes, and waits on a condition only where the
//! value is not ready for it. That a region notifies so, its clause on the accesses that it made says.
//!
//! Read `specs/` in this order: Watch for the law, then Traces and Regions for the calls, and Conds for the numbers of
//! the conditions in an `impl` of [`Ready`].
#![tactic(auto)]

mod law;
mod ready;
mod region;

pub use law::no_notification_is_forgotten;
pub use ready::Ready;
pub use region::{change, when};
