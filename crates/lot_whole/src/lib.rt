//! One ruled table for a whole lot: its locks with their values, its conditions and its semaphores, under one rule
//! and in one history. For whatever keeps the rule there is one sound state of the whole model (lot_core) that the
//! words, rights and values stand for, and the history without its notices is one run of the model from the opening
//! to it. `close` hands that run back.
//!
//! A lot (lot_sync) runs on it, by lot_scheme. It takes the worlds and steps of lot_words, lot_conds and lot_sems as
//! they are, whose tables stay usable alone. What a kind allows for its own words, the lot allows for all
//! (`specs/Lifts`).
//!
//! ```text
//!  LotPass  for each thread        LotRoot  for each key      LotWords  a word for each key, a letter for each thread
//!    locks  as lot_words has it      Lock, Cond or Sem,         one history, in which each call is one entry,
//!    conds  as lot_conds has it      as its kind has it         or a look and an exchange, which are two;
//!    sems   as lot_sems has it                                  a move of a value is none
//!    stand  idle, at a condition's bed, or at rest on it
//! ```
//!
//! | Calls | of | The pass then |
//! |---|---|---|
//! | `try_take`, `take`, `take_free`, `mark`, `park` | locks | has the lock, wants it, or sleeps in its line |
//! | `free`, `pass_on`, `value_out`, `value_in` | locks | has let the lock go; has its value out, or back |
//! | `enlist` | conditions | is at the condition's bed, with the lock that the event names |
//! | `look`, `lower`, `call`, `sweep` | conditions | knows the flag; has taken sleepers from the line |
//! | `try_take_permit`, `take_permit`, `mark_permit`, `park_permit` | semaphores | has one more, seeks one, or sleeps |
//! | `free_permit`, `pass_permit` | semaphores | has one permit less |
//! | `clear` | semaphores | is as it was |
//! | `post`, `collect` | letters | (the root owes one letter less); is awake again |
//! | `count` | all kinds | is as it was, and shows what it counted of the root's key |
//!
//! A thread waits in one kind at most, so one word serves for its letters of all kinds, and its pass tells whose
//! letter lies there.
//!
//! Read `specs/Family` first (the three kinds as one family), then `specs/Whole`, `specs/Lot` (the rule),
//! `specs/Standing` and `specs/Calls`, and for what it promises `specs/Headline`, `specs/Both`, `specs/Order` and
//! `specs/Closing`.
#![tactic(auto)]

mod apart;
mod closing;
pub mod kind;
pub mod laws;
mod opening;
mod permits;
mod posting;
mod releasing;
pub mod start;
mod taking;
pub mod views;
mod waiting;
pub mod words;

pub use kind::{LotLyingRoot, LotPass, LotRoot};
pub use lot_rights::WordsFault;
pub use lot_words::Keeps;
pub use words::LotWords;
