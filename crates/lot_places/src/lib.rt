//! The two rows of a bucket: places in which threads wait, and places in which roots lie.
//!
//! Stands on nothing. The bucket stands on it, and has one row of each.
//!
//! ```text
//!   queue            (thread 1, key 13)  (thread 2, key 1)  (thread 3, key 13)
//!   its places       0: (2, 1)   1: (1, 13)   2: free   3: (3, 13)     in use 1, then 0, then 3
//!   line of key 13   1, 3
//!   keys             from 1 on, each 12 more: 1, 13, 25
//!   their roots      0: root   1: root   2: (out)
//! ```
//!
//! `Queue` lies in a fixed row of places, and each place in use knows the next. So a thread that is taken
//! out of the middle moves no other. It counts how often each thread below its room waits, so that nobody walks along
//! it to find that one does not, which was never queued 255 times at once. `Places` has a place for each key, which
//! evenly spaced keys find by one division, so that they are not stored. No call but `new` and `spaced` takes memory.
#![tactic(auto)]

mod counts;
mod keys;
mod links;
pub mod places;
pub mod queue;

pub use places::Places;
pub use queue::Queue;
