//! What a caller concludes from the contracts alone: events lead from a sound state to a sound state.
ghost use Rattle.std.specs.Prelude.{IsTrue};
ghost use Rattle.lot_core.specs.Sound.{IsSound};
ghost use Rattle.lot_core.specs.State.{state_of};

use crate::asserts::is_so;
use lot_core::{CoreFault, Event, State, every_event_keeps_soundness};
use std::test::Fail;

// Whether the event was allowed, the state is sound behind it.
#[tactic(auto, using(crate::proofs::Sound::answered_sound))]
fn step_soundly(state: &mut State, event: Event) -> Result<(), CoreFault>
    requires { IsSound (state_of state.old) }
    ensures { IsSound (state_of state.new) }
{
    every_event_keeps_soundness();
    state.step(event)?;
    Ok(())
}

fn take_and_mark(state: &mut State) -> Result<(), CoreFault>
    requires { IsSound (state_of state.old) }
    ensures { IsSound (state_of state.new) }
{
    step_soundly(state, Event::Take { thread: 0, key: 0 })?;
    step_soundly(state, Event::Take { thread: 1, key: 0 })?;
    step_soundly(state, Event::Mark { thread: 1, key: 0 })
}

fn is_known_to_be_sound(state: &State) -> bool
    requires { IsSound (state_of state.now) }
    ensures { IsTrue result }
{
    state.is_sound()
}

#[test]
fn three_events_keep_a_state_sound(rt: HostRuntime) -> Result<(), Fail> {
    let mut state = State::open(rt.alloc(), 2, 1, 0)?;
    every_event_keeps_soundness();
    take_and_mark(&mut state)?;
    is_so(&rt, is_known_to_be_sound(&state), "sound");
    Ok(())
}
