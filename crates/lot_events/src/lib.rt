//! The seventeen events of the model, what a thread sees of its own, and how one line of a script
//! spells an event.
//!
//! Stands on nothing. `lot_core` stands on it: there are the states between events, and whole scripts.
//!
//! A line is an event's word and its numbers, with one space before each number, and LF. A number is
//! `0` or one to four digits of which the first is not `0`; a truth value is `0` or `1`. Each of the
//! calls of `reading` takes what it reads from the front of a text, and hands on what stands behind.
//!
//! Read `specs/Spelling` for the lines that spell an event, and `specs/Reading` for how a line is read.
//! That these two agree is proved in `proofs/Spelled`, for all that stands above.
#![tactic(auto)]

pub mod events;
pub mod reading;

pub use events::{Event, Point, Seen};
