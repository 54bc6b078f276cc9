//! The words of locks, conditions and semaphores, the state that they follow, and journals.

mod accesses;
mod conds;
mod journal;
mod locks;
mod names;
mod openings;
mod owners;
mod sems;
mod states;
pub(crate) mod tally;
