//! Locks, conditions and semaphores under load, and scripts replayed: all that `lotstress` runs, and in `measure` what
//! `lotbench` does.
//!
//! - `count`: workers lock, count and unlock.
//! - `relay`: producers put numbers into a buffer, consumers take them, and both wait on conditions.
//! - `pool`: workers share the permits of a semaphore.
//! - `many`: workers lock one of many keys, count and unlock.
//! - `contend`: workers count under locks of which some are hot; tells which locks they waited for.
//! - `replay`: the events of a script are made in the model.
//! - `witness`: the same, of a script that says what was seen, which the model judges.
//!
//! `run_command` runs what the words of a command line spell. Workers of `count`, `relay` and `pool` pass a gate at
//! each point of a round, at which a test can hold them (`Gate`); the program's holds nobody. It stands on `lot_sync`
//! and `lot_calls` (the locks, conditions and semaphores), `lot_journal` (what the locks of `count` guard), `lot_core`
//! and `lot_witness` (the model) and `lot_command` (the command line).
#![tactic(auto)]

mod buffer;
mod command;
mod contend;
pub mod count;
pub mod counter;
pub mod gate;
mod inside;
mod many;
pub mod measure;
mod pool;
pub mod relay;
mod replay;
mod spread;
mod witness;
pub mod workers;

pub use command::run_command;
