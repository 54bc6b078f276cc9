//! Pictures of runs of the model: all that `lotview` draws.
//!
//! `run` keeps what the events of a run and their answers show of each thread: where it stands, what it has, who took
//! it from a line. `marks` are what is drawn of that. `run_command` runs what the words of a command line spell, and
//! answers the picture as SVG.
//!
//! It stands on `lot_core` (the model) and `lot_command` (the command line). Every event is made in the model; what is
//! drawn is derived from what its thread saw.
#![tactic(auto)]

mod command;
mod drawing;
mod labels;
mod layout;
pub mod marks;
mod replay;
pub mod run;

pub use command::run_command;
