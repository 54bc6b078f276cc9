//! Ruled tables of rights: what the tables of lock words, of condition words and of semaphore words have in common,
//! proved once. A table has words that change in single atomic steps (`atomic_table`); who acts as a thread has its
//! *pass*, who changes a key's line has that key's *root*. lot_words, lot_conds and lot_sems are short kinds on it, and
//! lot_whole is all three in one table.
//!
//! ```text
//!  Kind        what words, slots and rights stand for: a world, which keeps a rule of its own
//!  WordsOf     the table: each step needs a pass, or a pass and a root, or a root
//!  PassOf      the right to act as one thread
//!  RootOf      the right to change the line of one key; LyingRootOf where it lies, without its number
//! ```
//!
//! The invariant of every table, its *rule*, is: there is a world that the words, the slots and the rights stand for,
//! and one history has led to it. The history has an entry for each access that was made: an event of the model
//! (lot_core), or a notice (a letter that was posted, looked for or found; a word that was looked at, or found to be
//! another than was asked for; a count of a key's tokens). Each right shows the entries that were made with it. So the
//! rights determine the history: where a right shows one entry more, exactly that access happened, made of what the
//! words told just then (`laws`).
//!
//! A kind proves a *turn* of each of its calls: the step keeps the invariant from every state in which the call is
//! allowed. Turns speak of worlds and of the model alone, never of seats, logs or tables.
//!
//! Read `specs/Seating`, `specs/History` and `specs/Rule` first, then `specs/Steps`, `words` for the steps, and
//! `letters` for how a thread is told.
#![tactic(auto)]

mod closing;
pub mod fault;
pub mod kind;
pub mod laws;
mod layout;
mod letters;
pub mod named;
mod opening;
pub mod pairs;
pub mod rights;
mod seated;
mod slots;
pub mod tells;
pub mod views;
pub mod words;

pub use fault::WordsFault;
pub use kind::Kind;
pub use layout::{MOST_KEYS, word_of_key, words_for};
pub use named::{Name, Named, OfOpening};
pub use rights::{Lying, LyingRootOf, Numbered, Numbering, PassOf, RootAt, RootOf};
pub use views::Knowledge;
pub use words::WordsOf;
