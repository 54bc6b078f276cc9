//! One scheme for a whole lot: its words, passes and roots under the name of its opening, as a parking lot sees them.
//!
//! It stands on lot_whole (one ruled table of all keys) and on lot_park (queues and sleep), which never name each
//! other: here both meet. Getting and releasing, waiting and notifying, and permits stand on it (lot_locks, lot_waits,
//! lot_permits), and a lot (lot_sync) on those. Nothing here takes memory or is refused; `key_contention` and
//! `note_contention` alone wait, for the key's bucket.
//!
//! | Type | What it is | Contracts see |
//! |---|---|---|
//! | `LotName` | what the name of an opening tells | its members (`N.locks`, ..), or all as one record, `N.LotName` |
//! | `LotScheme` | the words | their table, sizes and opening values |
//! | `NamedPass` | a thread's pass | how it stands (`LotStanding`): the thread, what it knows, and its accesses |
//! | `NamedRoot` | a key's root | the root itself; its number tells its kind |
//!
//! A call says what it makes of how a pass stands, as an equation: which state comes next, and which accesses were
//! added. Whole chains of calls are told by the traces of what was added (`specs/Traces`).
#![tactic(auto)]

mod apart;
mod conds;
pub mod contention;
mod locks;
pub mod name;
pub mod pass;
pub mod root;
pub mod scheme;
mod sems;

pub use contention::{Contention, CountsKeys, Silent, Tally, key_contention, note_contention};
pub use name::LotName;
pub use pass::NamedPass;
pub use root::NamedRoot;
pub use scheme::LotScheme;
