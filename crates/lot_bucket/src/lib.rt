//! One bucket of the parking lot: a queue in which threads of many keys wait, and a root for each key.
//!
//! Stands on `lot_places`, which has the queue and the places of the roots. The table and the parking lot
//! stand on it: each operation on a key locks the key's bucket, takes the key's root out, changes the
//! queue and the root alike, and puts it back.
//!
//! ```text
//!   keys and roots   1 ─ root      13 ─ root      25 ─ (out)
//!   queue            (thread 1, key 13)  (thread 2, key 1)  (thread 3, key 13)
//!   line of key 13   1, 3
//! ```
//!
//! No call but `new` and `spaced` takes memory.
//!
//! `Bucket` is the bucket itself. `Settled` is what lies behind its lock: a bucket that agrees with its
//! roots, so that whoever takes the lock may count on it, and whoever lets it go has to see to it.
#![tactic(auto)]

pub mod bucket;
pub mod root;
pub mod settled;
pub mod taking;

pub use bucket::{Bucket, BucketFault};
pub use root::Root;
pub use settled::Settled;
pub use taking::{Dequeued, Moment};
