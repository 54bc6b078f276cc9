//! A witness judged: by the model's own step, event by event.
ghost use Rattle.std.specs.Prelude.{◌≡◌, ◌↔◌, IsTrue, IfErr, OnOk};
ghost use Rattle.lot_core.specs.State.{state_of};
ghost use Rattle.lot_core.specs.Steps.{after_all};
ghost use Rattle.lot_witness.specs.Judging.{events_of, RunSaw, IsFaultIn, Judges};

use crate::witness::{Sighting, Witness};
use lot_core::{CoreFault, State};
use lot_events::Seen;
use std::alloc::Global;
use thiserror::Error;

/// Why a witness is refused. Events are counted from 1.
#[derive(Clone, Copy, Debug, PartialEq, Eq, Error)]
pub enum WitnessFault {
    /// The numbers of threads, locks, conditions and semaphores are not within the limits.
    #[error("bad limits")]
    BadLimits,
    /// Memory was wanted and not had. Each event before was allowed, and saw what is said of it.
    #[error("no memory")]
    NoMemory,
    /// The first event that fails is not allowed there.
    #[error("event {0} refused")]
    NotAllowed(usize),
    /// The first event that fails is allowed there, and sees something else.
    #[error("event {0} saw otherwise")]
    SawOtherwise(usize),
}

fn is_that(saw: Seen, said: Seen) -> bool
    ensures { IsTrue result ↔ (saw ≡ said) }
{
    saw == said
}

// Makes the events in order, as long as each is allowed and sees what is said of it.
fn follow(state: &mut State, sightings: &[Sighting]) -> Result<(), WitnessFault>
    ensures ok { OnOk result (RunSaw (state_of state.old) sightings.now × (state_of state.new ≡
        after_all (state_of state.old) (events_of sightings.now))) }
    ensures err { IfErr result (λ e. IsFaultIn (state_of state.old) sightings.now e) }
{
    for (before, sighting) in sightings.iter().enumerate() {
        match state.step(sighting.event) {
            Ok(saw) => {
                if !is_that(saw, sighting.saw) {
                    return Err(WitnessFault::SawOtherwise(before + 1));
                }
            }
            Err(CoreFault::NoMemory) => return Err(WitnessFault::NoMemory),
            Err(CoreFault::NotEnabled) => return Err(WitnessFault::NotAllowed(before + 1)),
            Err(CoreFault::BadLimits) => unreachable!(),
        }
    }
    Ok(())
}

impl Witness {
    /// The state that the witness leaves, where it is a run of the model in which each event saw what is said of it.
    /// Else BadLimits, NoMemory, or the first event that is not allowed, or sees otherwise.
    pub fn judge(&self, alloc: Global) -> Result<State, WitnessFault>
        ensures { Judges self.now.threads self.now.locks self.now.conds self.now.permits.items self.now.sightings.items result }
    {
        let opened = State::open_with(
            alloc,
            self.threads,
            self.locks,
            self.conds,
            self.permits.as_slice(),
        );
        let mut state = match opened {
            Ok(state) => state,
            Err(CoreFault::BadLimits) => return Err(WitnessFault::BadLimits),
            Err(_) => return Err(WitnessFault::NoMemory),
        };
        follow(&mut state, self.sightings.as_slice())?;
        Ok(state)
    }
}
