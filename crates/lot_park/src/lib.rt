//! The parking lot: lines of sleeping threads, one for each key.
//!
//! Stands on lot_bucket, which queues, on lot_table, which finds a key's bucket and grows, and on
//! lot_records, where threads sleep. lot_seeking stands on it, and locks, conditions and semaphores do. It is
//! written for every `Scheme`, so it knows neither locks nor words nor values.
//!
//! | Call | Under the lock of the key's bucket | After it |
//! |---|---|---|
//! | `park_conditionally` | validates, and queues | the action before sleep; then sleep until a letter is there |
//! | `park_acting` | the same | an action that has the pass; then the same sleep |
//! | `unpark_one` | the first of the line is taken, the callback decides on the token, the letter is posted | wake |
//! | `unpark_all` | the whole line is taken, the callback is told how many, the letters are posted | wake |
//! | `unpark_count` | the same of the first few, and the callback is told whether more may wait | wake |
//!
//! A letter carries all that a sleeper is told; a wake only ends a sleep, and the sleeper then looks for
//! its letter. A thread may be unparked between its queueing and its sleep: then it does not sleep. What a
//! look for a letter does, also one that finds none, the scheme says (`looked`), and a parking's contract
//! chains the looks (`Awaited`).
#![tactic(auto)]

pub mod lot;
mod parking;
pub mod scheme;
mod taken;

pub use lot::{ParkFault, Parked, ParkingLot};
pub use lot_bucket::{Dequeued as UnparkResult, Moment, Root};
pub use lot_table::{FEW_KEYS, Grown, MOST_THREADS, Served, TableFault, Unlocked};
pub use scheme::{AtOnce, BeforeSleep, Scheme, Token};
