//! What a program answers where it has no result.
ghost use Rattle.std.specs.Prelude.{◌≡◌, ◌≤◌};
ghost use Rattle.lot_command.specs.declared.failure.Failure.TheVariants.{NoMemory};

use std::alloc::AllocError;

/// Each failure has one text and one exit status.
#[derive(Clone, Copy, Debug, PartialEq, Eq, thiserror::Error)]
pub enum Failure {
    #[error("bad command line")]
    BadCommandLine,
    #[error("cannot read file")]
    CannotReadFile,
    /// The line is counted from 1.
    #[error("bad script line {0}")]
    BadScriptLine(usize),
    #[error("bad limits")]
    BadLimits,
    /// The event is counted from 1.
    #[error("event {0} refused")]
    EventRefused(usize),
    /// The model allows the event, and it sees something else than is said of it. It is counted from 1.
    #[error("event {0} saw otherwise")]
    SawOtherwise(usize),
    #[error("no memory")]
    NoMemory,
    #[error("cannot start a worker")]
    CannotStartWorker,
    #[error("cannot write")]
    CannotWrite,
}

impl Failure {
    /// 1 for what the caller can mend, 2 for an event that the model refuses or that saw otherwise than is said of it,
    /// 3 for what the machine lacks.
    pub fn status(self) -> u8
        ensures bounds { (1 ≤ result) × (result ≤ 3) }
        ensures memory { self ≡ NoMemory → result ≡ 3 }
    {
        match self {
            Failure::BadCommandLine
            | Failure::CannotReadFile
            | Failure::BadScriptLine(_)
            | Failure::BadLimits
            | Failure::CannotWrite => 1,
            Failure::EventRefused(_) | Failure::SawOtherwise(_) => 2,
            Failure::NoMemory | Failure::CannotStartWorker => 3,
        }
    }
}

impl From<AllocError> for Failure {
    fn from(_: AllocError) -> Failure {
        Failure::NoMemory
    }
}
