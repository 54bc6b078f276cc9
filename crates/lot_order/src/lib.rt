//! No circle of waiting: what keys in order are worth, as laws of the model alone.
//!
//! `above` says of two keys whether who has the first may wait for the second. Whoever is to wait for a lock, for a
//! permit, or for a notification (beside the lock that it waits with) has only keys with which it may (`KeepsOrder`).
//! Where `above` rises by some level, no chain of threads, of which each needs what the next has, leads back to its
//! start, and each ends with a thread that goes on, but for two cases (`SomeoneGoesOn`). It stands on
//! `lot_core`.
//!
//! Read `specs/Order`, then `specs/Waiting`. Lock levels are those of Chalice (Leino, Müller, Smans, ESOP 2010); what
//! a checker of a running kernel finds once it has happened (lockdep) is here an invariant of each state.
#![tactic(auto)]

pub mod laws;

pub use laws::{KeyOrder, ordered_states_go_on, orderly_runs_go_on};
