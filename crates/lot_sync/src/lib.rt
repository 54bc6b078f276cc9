//! Locks that guard values, conditions, and counting semaphores, for a number of threads: WTF's `Lock` and `Condition`
//! on its parking lot.
//!
//! It stands on `lot_locks`, `lot_waits` and `lot_permits`, over one table of words of all kinds (`lot_scheme`,
//! `lot_whole`). Open a `Lot` with the values that its locks guard, start it under a name, let each thread register for
//! its `Pass`, and lock: whoever gets a lock is handed its value as a `Held`, and spends it by an unlock.
//!
//! | Call | Where nobody contends | Else |
//! |---|---|---|
//! | `lock` | one compare-exchange | up to 40 yields, then a sleep in the lock's line |
//! | `unlock`, `unlock_asking` | one compare-exchange | the first of the line is taken: it owns it, or tries again |
//! | `try_lock` | one compare-exchange | an answer at once, after a fetch-or |
//! | `unlock_unparked` | one compare-exchange | an answer at once |
//! | `wait` | an unlock and a lock, and a sleep in the condition's line between them | |
//! | `notify_one`, `notify_some`, `notify_all` | nobody waits: one load | the first of the line are taken, woken |
//! | `acquire`, `release` | a load and a compare-exchange | a sleep in the line; its first is taken and woken |
//!
//! A pass is seen with the accesses to words that were made with it. Each call tells in its clause `made` which it
//! added, as a trace of `specs/Traces` (and of the crates below); its other clauses are about all else of the pass
//! (`≈`).
//! `close` tells that the accesses of each pass are its thread's part, in order, of one run of the whole model.
#![tactic(auto)]

mod acquiring;
mod apart;
mod closing;
mod contention;
mod fault;
pub mod held;
mod lock;
pub mod lot;
mod many;
mod notifying;
pub mod opened;
pub mod pass;
mod pool;
mod register;
mod rooms;
mod start;
mod unlock;
mod waiting;

pub use fault::{OpenFault, RegisterFault};
pub use held::Held;
pub use lot::Lot;
pub use lot_core::{MAX_KEYS, MAX_THREADS};
pub use lot_locks::Released;
pub use lot_park::{BeforeSleep, Moment};
pub use lot_permits::{Freed, Permit, Tried};
pub use lot_rights::MOST_KEYS;
pub use lot_scheme::{Contention, LotName, Tally};
pub use lot_waits::Ledger;
pub use many::MOST_CONDS;
pub use opened::Opened;
pub use pass::Pass;
