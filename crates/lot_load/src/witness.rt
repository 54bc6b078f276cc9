//! `witness FILE`: judges a script that says what was seen.

use lot_command::{Failure, read_text};
use lot_core::ScriptFault;
use lot_witness::{Witness, WitnessFault, parse_witness};
use std::alloc::Global;
use std::fmt::Write as _;
use std::io::Read;

/// How many events there were, where they are a run of the model in which each saw what is said of it.
pub fn witness<F: Read + Drop>(alloc: Global, file: F) -> Result<String, Failure> {
    let witness = read_witness(alloc, file)?;
    if let Err(fault) = witness.judge(alloc) {
        return Err(failure_of(fault));
    }
    let mut text = String::new(alloc);
    writeln!(text, "events {}", witness.sightings.len())?;
    writeln!(text, "witnessed")?;
    Ok(text)
}

fn read_witness<F: Read + Drop>(alloc: Global, file: F) -> Result<Witness, Failure> {
    let text = read_text(alloc, file)?;
    parse_witness(alloc, text.as_str()).map_err(|fault| match fault {
        ScriptFault::BadLine(line) => Failure::BadScriptLine(line),
        ScriptFault::NoMemory => Failure::NoMemory,
    })
}

/// What the fault of a witness is to whoever runs it.
fn failure_of(fault: WitnessFault) -> Failure {
    match fault {
        WitnessFault::BadLimits => Failure::BadLimits,
        WitnessFault::NoMemory => Failure::NoMemory,
        WitnessFault::NotAllowed(event) => Failure::EventRefused(event),
        WitnessFault::SawOtherwise(event) => Failure::SawOtherwise(event),
    }
}
