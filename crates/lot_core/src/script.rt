//! Scripts: the numbers of an opening and a list of events, as text.
//!
//! A script is ASCII text of at most 100,000 lines, each ended by LF. The first is `open N L C P ..`,
//! with the numbers of threads, locks and conditions and, for each semaphore, of its permits; each
//! other line is an event's word and its numbers, with exactly one space between two. A number is
//! `0` or one to four digits of which the first is not `0`; a truth value is `0` or `1`.
//!
//! | Line | Event |
//! |---|---|
//! | `try T K`, `take T K`, `mark T K`, `park T K`, `free T K` | of thread T on lock K |
//! | `pass T K F M` | of thread T on lock K, fair F, more M |
//! | `enlist T K L` | of thread T on condition K, owning lock L |
//! | `look T K`, `lower T K`, `sweep T K` | of thread T on condition K |
//! | `some T K N M`, `call T K M` | of thread T on condition K, count N (`call`: 1), more M |
//! | `stake T K`, `smark T K`, `spark T K`, `sfree T K`, `sclear T K` | of thread T on semaphore K |
//! | `spass T K M` | of thread T on semaphore K, more M |
ghost use Rattle.std.specs.Prelude.{◌≡◌, ℕ, List, IfOk, IfErr, IfSome, IfNone, Err, Some, None};

use lot_events::Event;
use lot_events::reading::{end, event_of, field, opening};
use std::alloc::{AllocError, Global};
use thiserror::Error;

/// The greatest number of lines of a script, its first one too.
pub const MAX_LINES: usize = 100_000;

/// Why a text is no script.
#[derive(Clone, Copy, Debug, PartialEq, Eq, Error)]
pub enum ScriptFault {
    /// The number, counted from 1, of the first line that is not as it should be. It is 1 for an
    /// empty text, and one more than [`MAX_LINES`] where there are too many lines and none before
    /// is bad.
    #[error("bad script line {0}")]
    BadLine(usize),
    /// Memory was wanted and not had. No line is bad.
    #[error("no memory")]
    NoMemory,
}

/// The numbers for an opening, and the events to make from there on.
///
/// Whether the numbers are within the limits is asked by [`State::open_with`](crate::State::open_with), and whether an
/// event is allowed by [`State::step`](crate::State::step).
#[derive(Debug, Drop)]
pub struct Script {
    pub threads: usize,
    pub locks: usize,
    pub conds: usize,
    /// How many permits each semaphore is opened with.
    pub permits: Vec<u32>,
    pub events: Vec<Event>,
}

ghost use Rattle.lot_core.specs.Script.{Reads, BeginsWith, NoEvent};
ghost use Rattle.lot_core.specs.Reading.{field_at, ReadsNumbers, SpellsFront, AreGoodLines, IsBadLine};
ghost use Rattle.lot_events.specs.declared.events.Event.{Event};

/// What stands behind the numbers at the front, each of them behind a space. No memory is wanted.
pub fn behind_numbers(text: &[u8]) -> &[u8]
    ensures read { (numbers : List ℕ) × ReadsNumbers text.now numbers result.now }
    ensures all { field_at result.now ≡ None }
{
    let mut rest = text;
    while let Some((_, behind)) = field(rest) {
        rest = behind;
    }
    rest
}

// The number of the first bad line, where these are the lines from the second on. Nothing is kept, so
// no memory is wanted.
fn first_bad(lines: &[u8]) -> Option<usize>
    ensures bad { IfSome result (λ number. IsBadLine lines.now number) }
    ensures good { IfNone result (AreGoodLines lines.now) }
{
    let mut rest = lines;
    for number in 2..MAX_LINES + 1 {
        if rest.is_empty() {
            return None;
        }
        rest = match event_of(rest) {
            Some((_, behind)) => behind,
            None => return Some(number),
        };
    }
    if rest.is_empty() {
        None
    } else {
        Some(MAX_LINES + 1)
    }
}

/// The numbers at the front, and what stands behind them. Only where there is one is memory wanted.
pub fn numbers(alloc: Global, text: &[u8]) -> Result<(Vec<u32>, &[u8]), AllocError>
    ensures read { IfOk result (λ x. ReadsNumbers text.now x.0.items x.1.now × (field_at x.1.now ≡ None)) }
    ensures some { IfErr result (λ e. (n : ℕ) × (rest : List ℕ) × (field_at text.now ≡ Some (n, rest))) }
{
    let mut numbers = Vec::new(alloc);
    let mut rest = text;
    while let Some((number, behind)) = field(rest) {
        numbers.push(number as u32)?;
        rest = behind;
    }
    Ok((numbers, rest))
}

// The events of the lines at the front. Only where there is one is memory wanted.
fn events(alloc: Global, lines: &[u8]) -> Result<Vec<Event>, AllocError>
    ensures read { IfOk result (λ x. (rest : List ℕ) × SpellsFront lines.now x.items rest × NoEvent rest) }
    ensures some { IfErr result (λ a. (e : Event) × (rest : List ℕ) × BeginsWith lines.now e rest) }
{
    let mut events = Vec::new(alloc);
    let mut rest = lines;
    while let Some((event, behind)) = event_of(rest) {
        events.push(event)?;
        rest = behind;
    }
    Ok(events)
}

/// Reads a whole script.
///
/// The answer names the first line that is not as it should be, whatever stands behind it; numbers
/// that no state has are no fault of the text. All lines are looked at before anything is kept, so
/// NoMemory comes only for a text that spells a script, of which a list could not grow: that of
/// permits, where it has a semaphore, or that of events, where it has an event.
pub fn parse_script(alloc: Global, text: &str) -> Result<Script, ScriptFault>
    ensures { Reads text.now result }
{
    let (threads, locks, conds, behind) = match opening(text.as_bytes()) {
        Some((threads, locks, conds, behind)) => (threads, locks, conds, behind),
        None => return Err(ScriptFault::BadLine(1)),
    };
    let lines = match end(behind_numbers(behind)) {
        Some(lines) => lines,
        None => return Err(ScriptFault::BadLine(1)),
    };
    if let Some(number) = first_bad(lines) {
        return Err(ScriptFault::BadLine(number));
    }
    let permits = match numbers(alloc, behind) {
        Ok((permits, _)) => permits,
        Err(_) => return Err(ScriptFault::NoMemory),
    };
    let events = match events(alloc, lines) {
        Ok(events) => events,
        Err(_) => return Err(ScriptFault::NoMemory),
    };
    Ok(Script {
        threads,
        locks,
        conds,
        permits,
        events,
    })
}
