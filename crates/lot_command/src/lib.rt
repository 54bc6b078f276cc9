//! The command line of the programs: its words and numbers, the script of a file, and what is written where, with which
//! exit status.
//!
//! `lot_load`, `lot_draw`, `gallery`, `starter` and the programs over them stand on it. It stands on `lot_core`, which
//! reads scripts and makes their events.
//!
//! | Failure | Text | Exit status |
//! |---|---|---|
//! | `BadCommandLine` | `bad command line` | 1 |
//! | `CannotReadFile` | `cannot read file` | 1 |
//! | `BadScriptLine` | `bad script line N`, counted from 1 | 1 |
//! | `BadLimits` | `bad limits` | 1 |
//! | `CannotWrite` | `cannot write` | 1 |
//! | `EventRefused` | `event N refused`, counted from 1 | 2 |
//! | `SawOtherwise` | `event N saw otherwise`, counted from 1 | 2 |
//! | `NoMemory` | `no memory` | 3 |
//! | `CannotStartWorker` | `cannot start a worker` | 3 |
#![tactic(auto)]

mod arguments;
mod failure;
mod numbers;
mod outcome;
mod script;

pub use arguments::{texts_of, with_words, words};
pub use failure::Failure;
pub use numbers::number;
pub use outcome::{report, text_of};
pub use script::{open_state, read_script, read_text};
