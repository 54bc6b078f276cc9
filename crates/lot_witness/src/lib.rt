//! Witnesses: scripts whose lines say what was seen. The model judges them: an accepted witness is a run of the model
//! in which each event saw that. One that limits or memory do not refuse is refused at its first event that is not
//! allowed, or sees otherwise.
//!
//! It stands on `lot_events`, which reads an event's line, and on `lot_core`, whose `State::step` makes the events.
//! `lotstress witness` runs it, on what `scripts/recorded` wrote of a running lot or what anybody wrote by hand.
//!
//! Read `specs/Spelling` for the lines, then `specs/Judging` for what an answer says.
#![tactic(auto)]

mod judging;
pub mod laws;
mod reading;
mod witness;

pub use judging::WitnessFault;
pub use laws::{a_witness_is_a_run, spelled_witnesses_are_read};
pub use witness::{Sighting, Witness, parse_witness};
