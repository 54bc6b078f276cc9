//! Condition words under one rule: the flag of WTF's `Condition`, and the letters by which waiting threads are told.
//! Each call is one single access to one word, and makes exactly one entry of the table's history (lot_rights), which
//! its contract names: an event of the model (lot_core), or a notice. Nothing here waits, and nothing but `open` takes
//! memory. lot_whole has the same conditions in a lot's one table, by this crate's worlds and turns; lot_words and
//! lot_sems are its siblings.
//!
//! A thread acts with its `CondPass`, and a condition's line changes with its `CondRoot`, which lies in the bucket of
//! the condition.
//!
//! | Call | Access | Entry | The pass then |
//! |---|---|---|---|
//! | `enlist` | store 1 | Enlist | is out on the condition, last in its line |
//! | `look` | load | Look | is as it was, and knows the flag |
//! | `call` | load, or store 0 | Call | has taken the line's first few, to each of whom the root owes a letter |
//! | `lower` | store 0 | Lower | has to sweep the condition |
//! | `sweep` | load | Sweep | has taken the whole line, to each of whom the root owes a letter |
//! | `post` | store 1 | a letter was posted, with the root | (the root owes one letter less) |
//! | `collect` | swap | a letter was looked for, and found or not | is in again, where a letter lay |
//!
//! A word is 1 where threads may wait on the condition, else 0. A letter is 0 for none, and 1 for a thread that was
//! taken.
//!
//! Read `specs/World` first (what the words and rights stand for), then `specs/Rule` (the rule that every access
//! keeps), `specs/Calls` and `specs/Headline`: letters fit, no sleeper is forgotten, the ledger is balanced, one
//! history.
#![tactic(auto)]

mod closing;
pub mod kind;
pub mod laws;
mod notifying;
mod opening;
pub mod views;
mod waiting;
pub mod words;

pub use kind::{CondPass, CondRoot};
pub use lot_rights::WordsFault;
pub use words::{CLEAR, CondWords, HAS_WAITERS};
