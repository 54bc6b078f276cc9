//! Locks over a parking lot: WTF's `Lock`, for the locks of a lot.
//!
//! It stands on lot_scheme, which has the words, passes and roots of a lot under its name, as a parking lot sees them,
//! and on lot_seeking, whose loop gets a lock. It is the sibling of lot_permits, and lot_waits stands on it.
//!
//! | Call | Where nobody contends | Else |
//! |---|---|---|
//! | `get` | one compare-exchange | `get_slowly`: up to 40 yields, then a sleep in the lock's line |
//! | `get_free`, `try_get` | one compare-exchange | an answer at once; `try_get` makes a fetch-or too |
//! | `free_unparked` | one compare-exchange | the lock is marked as found parked, and still owned |
//! | `let_go` | one compare-exchange | the first of the line is handed the lock, or tries again |
//!
//! A pass is told by how it stands (`LotStanding` of lot_scheme). Each call says what it makes of that, by an equation,
//! and by the trace of the accesses that it made.
#![tactic(auto)]

mod getting;
pub mod released;
mod releasing;
pub mod steps;

pub use getting::{Locks, get, get_free, get_slowly, is_held, is_parked, try_get};
pub use released::Released;
pub use releasing::{free_unparked, let_go, unpark_asking};
pub use steps::LockSteps;
