//! Conditions over a lot's parking lot: WTF's `Condition`.
//!
//! It stands on lot_scheme (a lot's words, passes and roots under one name) and on lot_locks, since whoever waits lets
//! a lock go and gets it again.
//!
//! | Call | Where nobody waits | Else |
//! |---|---|---|
//! | `wait` | | the thread is queued, lets its lock go, sleeps until a notification takes it, and gets the lock again |
//! | `has_waiters` | one load of the flag | one load of the flag |
//! | `notify_one` | one load of the flag | the first of the line is taken, and its letter posted |
//! | `notify_some` | one load of the flag | the first few of the line are taken in one visit of the bucket |
//! | `notify_all` | one load of the flag | one store clears the flag; then all of the line are taken |
//!
//! `notify_one` and `notify_some` clear the flag where they take nobody, or leave nobody in the line's bucket; where
//! others are left there, be it in another line, it stays set. A wait ends by its letter alone. Each call says how the
//! pass stands then, as an equation, and of which accesses its trace is made (`specs/Waiting`, `specs/Notifying`).
//!
//! A pass knows by key how many sleepers it took from a condition's line, and how many of its own waits have ended.
//! `Tallies` keeps these numbers modulo 2^64 (`count_wait`, `count_taken`); added up over all passes they are a lot's
//! `Ledger`, which says that in each condition as many waits have ended as sleepers were taken.
#![tactic(auto)]

mod calls;
mod ledger;
mod notifying;
pub mod steps;
pub mod tallies;
mod waiting;

pub use calls::{has_waiters, notify_all, notify_one, notify_some, wait};
pub use ledger::{Ledger, add_up, ledger_of};
pub use steps::CondSteps;
pub use tallies::{Tallies, count_taken, count_wait};
