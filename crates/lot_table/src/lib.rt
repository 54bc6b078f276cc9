//! The table of buckets: which bucket a key lies in, and how the table grows while it is in use.
//!
//! Stands on lot_bucket. The parking lot stands on it.
//!
//! ```text
//!   first version      3 buckets   closed and empty, once it was left
//!   cell 0            12 buckets   closed and empty
//!   cell 1            30 buckets   open: the newest version that is set
//!   cells 2 to 6       not set
//! ```
//!
//! The bucket of key `k` is bucket `k mod size` of the newest version. Versions are read without a lock, and
//! one bucket is locked; whoever finds that bucket closed begins again. Buckets and roots are never dropped, and
//! once the table is made, growth alone can ask for memory. Growth, as in `ensure`:
//!
//! | Step | What | Where it ends early |
//! |---|---|---|
//! | 1 | all memory is taken: the new version, whose buckets are closed | no memory: nothing has changed |
//! | 2 | all old buckets are locked, in order, and looked at | one is closed, or too many wait: it begins again |
//! | 3 | the new version is published | another was published first: as in 2 |
//! | 4 | the old buckets are taken out, closed ones stay, and the lines and the roots are moved | |
//! | 5 | the new buckets are opened and put behind their locks, and all old locks released | |
#![tactic(auto)]

mod cells;
mod closing;
mod denied;
mod ensuring;
mod fresh;
mod growing;
mod growth;
mod moves;
mod served;
mod sizes;
mod slot;
mod table;
mod version;
mod versions;

pub use moves::{Moved, regrow};
pub use served::Served;
pub use sizes::{FEW_KEYS, Grown, MOST_THREADS, TableFault, first_size, grown_size};
pub use table::{Table, Unlocked};
