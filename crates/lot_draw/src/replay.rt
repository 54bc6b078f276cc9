//! From a script's file to the picture of its run.

use crate::drawing::draw;
use crate::run::Run;
use lot_command::{Failure, open_state, read_script};
use lot_core::{CoreFault, Script};
use std::alloc::Global;
use std::io::Read;

/// The picture of the run of the script that the file holds. The whole script is run before anything is drawn.
pub fn picture_of_file<F: Read + Drop>(alloc: Global, file: F) -> Result<String, Failure> {
    let script = read_script(alloc, file)?;
    let run = run_of(alloc, &script)?;
    Ok(draw(alloc, &script, &run)?)
}

/// Makes the events in the model, and keeps what they show.
fn run_of(alloc: Global, script: &Script) -> Result<Run, Failure> {
    let mut state = open_state(alloc, script)?;
    let mut run = Run::new(alloc, script.threads)?;
    for (before, event) in script.events.iter().enumerate() {
        match state.step(*event) {
            Ok(seen) => run.see(*event, seen)?,
            Err(CoreFault::NoMemory) => return Err(Failure::NoMemory),
            Err(_) => return Err(Failure::EventRefused(before + 1)),
        }
    }
    run.end()?;
    Ok(run)
}
