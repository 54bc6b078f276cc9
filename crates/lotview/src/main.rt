//! `lotview FILE` runs a script of events through the proved model and draws the run, as SVG on standard output: a lane
//! for each thread, a column for each event.
//!
//! It stands on `lot_draw`, which makes the picture, and on `lot_command`, which reads the words and tells what came of
//! them.
#![tactic(auto)]

use lot_command::{with_words, words};
use lot_draw::run_command;
use std::fs::File;
use std::process::ExitCode;

fn main(rt: HostRuntime) -> ExitCode {
    let alloc = rt.alloc();
    let draw = |words: &[&str]| -> u8 {
        let file = match words {
            [path] => File::open(&rt, *path).ok(),
            _ => None,
        };
        run_command(alloc, words, file, &mut rt.stdout(), &mut rt.stderr())
    };
    ExitCode::from(with_words(alloc, words(&rt, alloc), &mut rt.stderr(), draw))
}
