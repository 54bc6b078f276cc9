//! Locks, waits and notifications on a parking lot of their own, by the calls of `lot_locks` and `lot_waits`.

mod asserts;
mod gates;
mod handoffs;
mod ledger;
mod locks;
mod sweeps;
mod tables;
mod waiters;
mod waits;
