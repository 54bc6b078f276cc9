//! The command line: what is written where, and with which status it ends.

use crate::replay::picture_of_file;
use lot_command::{Failure, report, text_of};
use std::alloc::Global;
use std::io::{Read, Write};

/// What `--help` prints.
const USAGE: &str = "\
lotview FILE     draws a script of the model, as SVG on standard output: a lane for each thread, a column for each event

Status: 0; 1 for words or a file that can't be taken, or an output that can't be written; 2 where the model refuses an
event; 3 for want of memory.
";

/// Draws the script that the one word names, and answers the exit status: 0, or that of the failure whose text is
/// written to `faults`. Nothing is written to `out` then, unless it is `out` that fails. `file` is the file of that
/// name, where it could be opened. The one word `--help` asks what there is.
pub fn run_command<F: Read + Drop, W: Write, E: Write>(
    alloc: Global,
    words: &[&str],
    file: Option<F>,
    out: &mut W,
    faults: &mut E,
) -> u8 {
    let outcome = match words {
        ["--help"] => text_of(alloc, USAGE),
        [_] => match file {
            Some(file) => picture_of_file(alloc, file),
            None => Err(Failure::CannotReadFile),
        },
        _ => Err(Failure::BadCommandLine),
    };
    report(outcome, out, faults)
}
