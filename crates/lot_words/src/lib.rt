//! Lock words under one rule: the bits of WTF's `Lock`, the letters by which sleepers are told, and the values that the
//! locks guard. Each call but `value_out` and `value_in` is one single access to one word, and makes exactly one entry
//! of the table's history (lot_rights), which its contract names: an event of the model (lot_core), or a notice.
//! Nothing here waits, and nothing but `open` takes memory. lot_whole has the same locks in a lot's one table, by this
//! crate's worlds and turns; lot_conds and lot_sems are its siblings.
//!
//! A thread acts with its `LockPass`, and a lock's line changes with its `LockRoot`, which lies in the bucket of the
//! lock.
//!
//! | Call | Access | Entry | The pass then |
//! |---|---|---|---|
//! | `try_take` | fetch-or 1 | Try | holds the lock, or wants nothing |
//! | `take` | fetch-or 1 | Take | holds the lock, or wants it |
//! | `take_free` | compare-exchange 0 to 1 | Take, or the word was another | holds the lock, or is as it was |
//! | `mark` | compare-exchange 1 to 3 | Mark, or the word was another | wants the lock, which is marked as parked |
//! | `park` | load | Park | sleeps in the lock's line, or still wants the lock |
//! | `free` | compare-exchange 1 to 0 | Free | has let the lock go, or knows that it is parked |
//! | `pass_on` | load or store | Pass | has let the lock go; the root owes the line's first a letter |
//! | `post` | store | a letter was posted, with the root | (the root owes nothing) |
//! | `collect` | swap | a letter was looked for, and found or not | is awake, and holds the lock if so told |
//! | `value_out`, `value_in` | two loads of a spare word | none | has the value out, or back in its slot |
//!
//! A word's states are 0, 1 (held), 2 (parked) and 3. A letter is 0 for none, 1 for a barging opportunity, and 2 for a
//! lock that was handed over.
//!
//! Read `specs/World` first (what the words and rights stand for), then `specs/Values` and `specs/Rule` (the rule that
//! every access keeps), `specs/Calls` and `specs/Headline`: one owner, sleepers are marked, someone is trying, lawful
//! values, one history.
#![tactic(auto)]

mod apart;
pub mod closing;
pub mod exclusive;
pub mod keeps;
pub mod kind;
pub mod laws;
mod opening;
mod parking;
mod posting;
mod releasing;
pub mod shelf;
mod slots;
pub mod start;
mod taking;
pub mod views;
pub mod words;

pub use keeps::Keeps;
pub use kind::{LockPass, LockRoot};
pub use lot_rights::{Name, Named, OfOpening, WordsFault};
pub use words::{HELD, HELD_AND_PARKED, LockWords, PARKED, UNHELD};
