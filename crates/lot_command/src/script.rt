//! The script of a file, and the state in which it begins.

use crate::failure::Failure;
use lot_core::{CoreFault, Script, ScriptFault, State, parse_script};
use std::alloc::Global;
use std::io::{ErrorKind, Read};

/// The greatest length of a script file, in bytes.
const MAX_FILE: u64 = 4_000_000;

/// The script that the file holds. The whole text is parsed here, so a bad line is told before bad limits, and bad
/// limits before a refused event.
pub fn read_script<F: Read + Drop>(alloc: Global, file: F) -> Result<Script, Failure> {
    let text = read_text(alloc, file)?;
    parse_script(alloc, text.as_str()).map_err(|fault| match fault {
        ScriptFault::BadLine(line) => Failure::BadScriptLine(line),
        ScriptFault::NoMemory => Failure::NoMemory,
    })
}

/// The text that the file holds. A file that is longer than 4,000,000 bytes, or no text, cannot be read.
pub fn read_text<F: Read + Drop>(alloc: Global, file: F) -> Result<String, Failure> {
    let mut bytes = Vec::new(alloc);
    let read = file.take(MAX_FILE + 1).read_to_end(&mut bytes);
    if let Err(error) = read {
        return Err(match error.kind() {
            ErrorKind::OutOfMemory => Failure::NoMemory,
            _ => Failure::CannotReadFile,
        });
    }
    if bytes.len() as u64 > MAX_FILE {
        return Err(Failure::CannotReadFile);
    }
    String::from_utf8(bytes).map_err(|_| Failure::CannotReadFile)
}

/// The state before the script's first event.
pub fn open_state(alloc: Global, script: &Script) -> Result<State, Failure> {
    State::open_with(
        alloc,
        script.threads,
        script.locks,
        script.conds,
        script.permits.as_slice(),
    )
    .map_err(|fault| match fault {
        CoreFault::BadLimits => Failure::BadLimits,
        _ => Failure::NoMemory,
    })
}
