//! Random scripts: after each event the state is sound.
ghost use Rattle.std.specs.Prelude.{◌<◌, ◌≤◌, IfSome};

use crate::asserts::{equal_in, is_so_in};
use lot_core::{CoreFault, Event, State};
use rand_xoshiro::Xoshiro256PlusPlus;
use rand_xoshiro::rand_core::{Rng, SeedableRng};
use std::alloc::Global;
use std::process::Abort;
use std::test::Fail;

const SEED: u64 = 2016;

const SCRIPTS: usize = 1000;

const EVENTS: usize = 200;

// How often an event is drawn again at most, where the state refuses it.
const DRAWS: usize = 10_000;

const KINDS: usize = 17;

// The first kind of event on a condition.
const COND_KINDS: usize = 6;

// The first kind of event on a semaphore.
const SEM_KINDS: usize = 11;

const THREADS: u64 = 16;

fn below(rng: &mut Xoshiro256PlusPlus, bound: u64) -> usize
    requires { 0 < bound }
    ensures { result < bound }
{
    (rng.next_u64() % bound) as usize
}

// Each state has the locks 0 and 1, the conditions 2 and 3 and the semaphores 4 and 5. Thread 0 joins no line, so that
// some event is always allowed.
fn drawn_event(rng: &mut Xoshiro256PlusPlus, kind: usize) -> Event {
    let any = below(rng, THREADS);
    let sleeper = 1 + below(rng, THREADS - 1);
    let joins_a_line = matches!(kind, 3 | 6 | 13);
    let thread = if joins_a_line { sleeper } else { any };
    let more = below(rng, 2) == 0;
    let key = first_key(kind) + below(rng, 2);
    event_of(rng, kind, thread, key, more)
}

// The first of the two keys that events of the kind are on.
fn first_key(kind: usize) -> usize
    ensures { result ≤ 4 }
{
    if kind < COND_KINDS {
        0
    } else if kind < SEM_KINDS {
        2
    } else {
        4
    }
}

fn event_of(
    rng: &mut Xoshiro256PlusPlus,
    kind: usize,
    thread: usize,
    key: usize,
    more: bool,
) -> Event {
    match kind {
        0 => Event::Try { thread, key },
        1 => Event::Take { thread, key },
        2 => Event::Mark { thread, key },
        3 => Event::Park { thread, key },
        4 => Event::Free { thread, key },
        5 => Event::Pass {
            thread,
            key,
            fair: below(rng, 2) == 0,
            more,
        },
        6 => Event::Enlist {
            thread,
            key,
            lock: below(rng, 2),
        },
        7 => Event::Look { thread, key },
        8 => Event::Call {
            thread,
            key,
            count: 1 + below(rng, 4),
            more,
        },
        9 => Event::Lower { thread, key },
        10 => Event::Sweep { thread, key },
        11 => Event::SemTake { thread, key },
        12 => Event::SemMark { thread, key },
        13 => Event::SemPark { thread, key },
        14 => Event::SemFree { thread, key },
        15 => Event::SemPass { thread, key, more },
        _ => Event::SemClear { thread, key },
    }
}

// Makes an allowed event, and answers its kind. What is refused is refused since it is not allowed.
fn step_on(rt: &impl Abort, rng: &mut Xoshiro256PlusPlus, state: &mut State) -> Option<usize>
    ensures { IfSome result (λ kind. kind < KINDS) }
{
    for _ in 0..DRAWS {
        let kind = below(rng, KINDS as u64);
        let event = drawn_event(rng, kind);
        match state.step(event) {
            Ok(_) => return Some(kind),
            Err(fault) => equal_in(rt, fault, CoreFault::NotEnabled, event),
        }
    }
    None
}

// Makes the events of a script, each allowed, and counts those of each kind.
fn make_events(
    rt: &impl Abort,
    rng: &mut Xoshiro256PlusPlus,
    state: &mut State,
    made: &mut [u64; KINDS],
    script: usize,
) -> Result<(), Fail> {
    for _ in 0..EVENTS {
        let kind = step_on(rt, rng, state).ok_or("every event was refused")?;
        made[kind] = made[kind].saturating_add(1);
        is_so_in(rt, state.is_sound(), script);
    }
    Ok(())
}

fn run_script(
    rt: &impl Abort,
    alloc: Global,
    rng: &mut Xoshiro256PlusPlus,
    made: &mut [u64; KINDS],
    script: usize,
) -> Result<(), Fail> {
    let mut state = State::open_with(alloc, THREADS as usize, 2, 2, &[1, 3])?;
    make_events(rt, rng, &mut state, made, script)
}

#[test]
fn random_scripts_stay_sound(rt: HostRuntime) -> Result<(), Fail> {
    let mut rng = Xoshiro256PlusPlus::seed_from_u64(SEED);
    let mut made = [0u64; KINDS];
    for script in 0..SCRIPTS {
        run_script(&rt, rt.alloc(), &mut rng, &mut made, script)?;
    }
    for count in made {
        is_so_in(&rt, count > 500, made);
    }
    Ok(())
}
