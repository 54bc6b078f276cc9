//! Semaphore words under one rule: the permits that are left of each counting semaphore, its parked bit, and the
//! letters by which sleepers are told. Each access to a word makes exactly one entry of the table's history
//! (lot_rights), which the contract of its call names: an event of the model (lot_core), or a notice. A call is one
//! access, or a look and then an exchange of the word that was seen. Nothing here waits, and nothing but `open` and
//! `words_at_opening` takes memory. lot_words and lot_conds are its siblings.
//!
//! A thread acts with its `SemPass`, and a semaphore's line changes with its `SemRoot`, which lies in the bucket of the
//! semaphore.
//!
//! | Call | Access | Entry | The pass then |
//! |---|---|---|---|
//! | `try_take` | load, exchange by -2 | what was found; SemTake or the other word | has a permit more, or as before |
//! | `take` | load, exchange by -2 | the same, or SemTake with none left | has a permit more, seeks one, or as before |
//! | `mark` | compare-exchange 0 to 1 | SemMark, or what the word was | still seeks a permit |
//! | `park` | load | SemPark | sleeps in the semaphore's line, or still seeks a permit |
//! | `free` | load, exchange by +2 | what was found; SemFree or the other word | has a permit less, or as before |
//! | `pass_on` | fetch-add | SemPass | has one permit less; the root owes the line's first a letter |
//! | `clear` | fetch-and | SemClear | is as it was |
//! | `post` | store 1 | a letter was posted, with the root | (the root owes nothing) |
//! | `collect` | swap | a letter was looked for, and found or not | is awake, and seeks its permit again |
//!
//! `check_permits` joins two passes and gives them back as they were: what both have is together at most the opening
//! number.
//!
//! A word is twice the number of permits that are left, and 1 more where threads may be parked. A letter is 0 for none,
//! and 1 for a thread that may try again. A released permit is never handed over, as a lock is by a fair pass: whoever
//! comes first takes it.
//!
//! Read `specs/World` first (what the words and rights stand for), then `specs/Rule` (the rule that every access
//! keeps), `specs/Calls` and `specs/Headline`: permits are conserved, sleepers are marked, no permit is left lying, one
//! history.
#![tactic(auto)]

mod apart;
mod closing;
pub mod kind;
pub mod laws;
pub mod opening;
mod parking;
mod posting;
mod releasing;
pub mod start;
pub mod taking;
pub mod views;
pub mod words;

pub use kind::{SemPass, SemRoot};
pub use lot_rights::WordsFault;
pub use taking::Taken;
pub use words::{NONE_LEFT, PARKED, PERMIT, SemWords};
