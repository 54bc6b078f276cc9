//! `replay FILE`: runs a script through the model and prints the state that it leaves.

use lot_command::{Failure, open_state, read_script};
use lot_core::{CoreFault, Script, State, print_state};
use std::alloc::Global;
use std::io::Read;

/// The state that the script leaves, printed.
pub fn replay<F: Read + Drop>(alloc: Global, file: F) -> Result<String, Failure> {
    let script = read_script(alloc, file)?;
    let state = run_script(alloc, &script)?;
    print_state(alloc, &state).map_err(|_| Failure::NoMemory)
}

fn run_script(alloc: Global, script: &Script) -> Result<State, Failure> {
    let mut state = open_state(alloc, script)?;
    match state.run(script.events.as_slice()) {
        Ok(()) => Ok(state),
        Err((before, fault)) => Err(failure_at(before + 1, fault)),
    }
}

/// What the fault of a script's event is to whoever runs it.
fn failure_at(event: usize, fault: CoreFault) -> Failure {
    match fault {
        CoreFault::NoMemory => Failure::NoMemory,
        _ => Failure::EventRefused(event),
    }
}
