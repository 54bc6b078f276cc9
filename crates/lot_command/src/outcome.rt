//! What is written of an outcome, and where.
ghost use Rattle.std.specs.Prelude.{◌≡◌, ◌≤◌, IfOk, OnErr, string_bytes};
ghost use Rattle.lot_command.specs.declared.failure.Failure.TheVariants.{NoMemory};

use crate::failure::Failure;
use arrayvec::ArrayString;
use std::alloc::Global;
use std::fmt::Write as _;
use std::io::Write;

/// Room for the longest text of a fault: some words and a number of 20 digits.
const LONGEST_FAULT: usize = 48;

/// The text as an outcome, as that of who asks for help; `NoMemory` where room for it is refused.
pub fn text_of(alloc: Global, text: &str) -> Result<String, Failure>
    ensures { IfOk result (λ told. string_bytes told ≡ text.now) }
{
    let mut told = String::new(alloc);
    told.push_str(text)?;
    Ok(told)
}

/// Writes the text to `out`, or the failure to `faults`, and answers the exit status, which is 0 only where the whole
/// text was taken. Of a failure nothing is written to `out`.
pub fn report<W: Write, E: Write>(
    outcome: Result<String, Failure>,
    out: &mut W,
    faults: &mut E,
) -> u8
    ensures { OnErr outcome (1 ≤ result) }
{
    let written = outcome.and_then(|text| match out.write_all(text.as_bytes()) {
        Ok(()) => Ok(()),
        Err(_) => Err(Failure::CannotWrite),
    });
    match written {
        Ok(()) => 0,
        Err(failure) => fail(failure, faults),
    }
}

/// Writes the failure to `faults`, and answers its exit status.
pub(crate) fn fail<E: Write>(failure: Failure, faults: &mut E) -> u8
    ensures bounds { 1 ≤ result }
    ensures memory { failure ≡ NoMemory → result ≡ 3 }
{
    tell(failure, faults);
    failure.status()
}

/// Writes the fault's line by one write, so that the lines of several programs never mix. A fault that cannot be
/// written is still told by the status.
fn tell<E: Write>(failure: Failure, faults: &mut E) {
    let mut line: ArrayString<LONGEST_FAULT> = ArrayString::new();
    let _ = writeln!(line, "{failure}");
    let _ = faults.write_all(line.as_bytes());
}
