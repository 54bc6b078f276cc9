//! How long locks, conditions and semaphores take: all that `lotbench` measures.
//!
//! - `count`: each thread locks a lock by chance, adds one to its number and unlocks, so many times.
//! - `share`: the same on one lock, for so long; how often the threads got it that got it least and most often.
//! - `relay`: producers put into a buffer, consumers take from it, and both wait on conditions.
//! - `wait`: how long it takes from asking for a lock to owning it, where each thread holds it for so long and stays
//!   outside for so long.
//! - `fair`: the longest wait, how long a wait is that goes on at a moment drawn by chance, and how evenly the threads
//!   share the rounds, where locks are let go by the clock, never fairly or always fairly.
//! - `notify`: each thread notifies one on a condition, where nobody waits.
//! - `turns`: each thread waits for its turn on a condition of its own, and notifies the next.
//! - `permits`: each thread gets a permit of one semaphore and gives it back, so many times.
//! - `keys`: a lot of many locks is opened, its threads register one after the other while one sleeps, lock and unlock
//!   locks by chance, and it is closed; how long each takes, and how long from an unlock to its sleeper.
//! - `start`: a lot is opened and started, all its threads register, and it is closed.
//!
//! `plan` says what a command line asks for, `crew` does it with so many threads, and `summary` has what came of it.
//! `run_command` does all three. It stands on the public calls of `lot_sync`; `lot_calls` starts and ends its lots,
//! and `lot_command` reads its numbers and tells what came of them.

mod clock;
mod command;
pub mod crew;
mod fair;
pub mod keys;
mod meeting;
mod member;
pub mod plan;
mod relay;
mod rounds;
mod shares;
mod sleepers;
mod stages;
mod steps;
pub mod summary;
mod times;
mod turns;
pub(crate) mod value;

pub use command::run_command;
