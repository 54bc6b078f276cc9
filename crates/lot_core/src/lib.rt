//! The model of the parking lot's locks, conditions and semaphores, made runnable: seventeen events,
//! each a single access of one thread to the word of one key, and the states between them. That an
//! event keeps a sound state sound, and a step of a part that part, is proved here once, for all that
//! stands above: lot_words, lot_conds and lot_sems rule their tables by its three parts, lot_whole
//! a lot's table by the whole, and the programs replay scripts of events.
//!
//! | Event | Allowed where | What it does |
//! |---|---|---|
//! | `Try`, `Take` | calm (`Take`: or trying) | gets an unheld lock; `Take` wants a held one |
//! | `Mark` | trying, the lock is held | sets its parked bit |
//! | `Park` | wants the lock, not queued on it | goes last in the line of a held and parked lock |
//! | `Free` | has the lock, calm or at a bed | lets an unparked lock go |
//! | `Pass` | the same, the lock is parked | takes the first of its line out; hands it the lock, or lets the lock go |
//! | `Enlist` | calm, has a lock | sets the condition's flag, goes last in its line |
//! | `Look` | calm | reads the flag |
//! | `Call` | calm | takes the first few of the line; clears the flag where no more may wait |
//! | `Lower` | calm | clears the flag, and is to sweep |
//! | `Sweep` | is to sweep | takes the whole line |
//! | `SemTake` | calm or seeking | takes a permit that is left; else seeks one |
//! | `SemMark` | seeking, no permit is left | sets the semaphore's parked bit |
//! | `SemPark` | seeking | goes last in the line of a parked semaphore of which no permit is left |
//! | `SemFree` | calm, has a permit | gives it back to an unparked semaphore |
//! | `SemPass` | the same | gives it back, and takes the first of the line |
//! | `SemClear` | calm, the line is empty | clears the parked bit |
//!
//! A thread is calm, or wants a lock, or is at the bed of a condition (enlisted, still with its
//! lock), or rests (enlisted once, its lock let go), or sweeps, or seeks a permit. It is *trying* to
//! get a lock where it wants it and is not in its line, or rests and was taken from the condition's
//! line. It is *seeking* a permit where it seeks one and is not in the semaphore's line.
//!
//! A state is *sound* where each lock has at most one owner, sleepers in a lock's line mean that it
//! is parked, a free lock with sleepers has some thread that is trying, a clear flag with sleepers
//! has some thread that sweeps, each thread is in one line at most, and only threads of the state are
//! in any; where the permits of a semaphore that are left and those that are out are together its
//! opening number, sleepers in its line mean that it is parked, and as many threads at least are then
//! seeking as permits are left.
//!
//! The events themselves, and how a line spells one, are `lot_events`.
//!
//! Read `specs/` in this order: Model, Steps, Parts, Sound, WellFormed, then Limits and State for the calls, Script, Reading and
//! Printed for the texts; the lines of Script are those of `specs/Spelling` of `lot_events`. Rows, Sums, Lines and
//! Semaphores are parts of these.
#![tactic(auto)]

pub mod laws;
mod lines;
pub mod printing;
pub mod script;
mod semaphores;
mod sound;
pub mod state;

pub use laws::{
    every_event_keeps_soundness, every_run_is_sound, every_run_stays_well_formed,
    every_step_keeps_its_part_sound, parts_follow, spelled_scripts_are_read,
};
pub use lot_events::{Event, Point, Seen};
pub use printing::print_state;
pub use script::{MAX_LINES, Script, ScriptFault, parse_script};
pub use state::{CoreFault, MAX_KEYS, MAX_THREADS, State};
