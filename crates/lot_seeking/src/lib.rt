//! How a thread waits for a lock or a permit, above the parking lot, as WTF's LockAlgorithm stands apart from its
//! ParkingLot.
//!
//! Whoever seeks one gets it by `get_or_park`: a thread alone tries twice more, then it yields up to 40 times, looking
//! or trying between, and then parks. It is written for whatever a `Sought` says can be looked at, taken and marked, so
//! it knows neither locks nor permits. What it promises holds for any number of tries, yields and looks.
#![tactic(auto)]

pub mod seeking;
mod spins;

pub use seeking::{Look, Seeking, Sought, get_or_park};
