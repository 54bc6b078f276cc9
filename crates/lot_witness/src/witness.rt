//! A witness as text: the first line of a script, and lines that end in what was seen.
ghost use Rattle.std.specs.Prelude.{ℕ, List, IfOk, IfErr, IfSome, IfNone};
ghost use Rattle.lot_witness.specs.declared.witness.Sighting.{Sighting};
ghost use Rattle.lot_witness.specs.Spelling.{Reads, BeginsWith, BeginsWithAll, NoSighting, AreGood, IsBadLine};

use crate::reading::first_sighting;
use lot_core::script::{behind_numbers, numbers};
use lot_core::{MAX_LINES, ScriptFault};
use lot_events::reading::{end, opening};
use lot_events::{Event, Seen};
use std::alloc::{AllocError, Global};

/// An event, and what its thread saw of it.
#[derive(Clone, Copy, Debug, PartialEq, Eq)]
pub struct Sighting {
    pub event: Event,
    pub saw: Seen,
}

/// The numbers for an opening, and what was seen from there on.
#[derive(Debug, Drop)]
pub struct Witness {
    pub threads: usize,
    pub locks: usize,
    pub conds: usize,
    /// How many permits each semaphore is opened with.
    pub permits: Vec<u32>,
    pub sightings: Vec<Sighting>,
}

// The number of the first bad line, where these are the lines from the second on. Nothing is kept, so no memory is
// wanted.
fn first_bad(lines: &str) -> Option<usize>
    ensures bad { IfSome result (λ number. IsBadLine lines.now number) }
    ensures good { IfNone result (AreGood lines.now) }
{
    let mut rest = lines;
    for number in 2..MAX_LINES + 1 {
        if rest.is_empty() {
            return None;
        }
        rest = match first_sighting(rest) {
            Some((_, behind)) => behind,
            None => return Some(number),
        };
    }
    if rest.is_empty() {
        None
    } else {
        Some(MAX_LINES + 1)
    }
}

// What the lines at the front tell. Only where there is one is memory wanted.
fn sightings(alloc: Global, lines: &str) -> Result<Vec<Sighting>, AllocError>
    ensures read { IfOk result (λ xs. (rest : List ℕ) × BeginsWithAll lines.now xs.items rest × NoSighting rest) }
    ensures some { IfErr result (λ a. (x : Sighting) × (rest : List ℕ) × BeginsWith lines.now x rest) }
{
    let mut sightings = Vec::new(alloc);
    let mut rest = lines;
    while let Some((sighting, behind)) = first_sighting(rest) {
        sightings.push(sighting)?;
        rest = behind;
    }
    Ok(sightings)
}

/// Reads a whole witness, or names the first line that is not as it should be, counted from 1. All lines are looked at
/// before anything is kept, so NoMemory comes only for a text that spells a witness, with a semaphore or an event.
pub fn parse_witness(alloc: Global, text: &str) -> Result<Witness, ScriptFault>
    ensures { Reads text.now result }
{
    let Some((threads, locks, conds, behind)) = opening(text.as_bytes()) else {
        return Err(ScriptFault::BadLine(1));
    };
    let Some(_) = end(behind_numbers(behind)) else {
        return Err(ScriptFault::BadLine(1));
    };
    let Some((_, lines)) = text.split_once('\n') else {
        return Err(ScriptFault::BadLine(1));
    };
    if let Some(number) = first_bad(lines) {
        return Err(ScriptFault::BadLine(number));
    }
    let permits = match numbers(alloc, behind) {
        Ok((permits, _)) => permits,
        Err(_) => return Err(ScriptFault::NoMemory),
    };
    let sightings = match sightings(alloc, lines) {
        Ok(sightings) => sightings,
        Err(_) => return Err(ScriptFault::NoMemory),
    };
    Ok(Witness {
        threads,
        locks,
        conds,
        permits,
        sightings,
    })
}
