//! The stages in which an open lot of many locks is measured: in each its threads do one thing together.
ghost use Rattle.std.specs.Prelude.{◌≡◌};

use super::keys::{Keys, Stretch, pairs_of};
use super::meeting::Meeting;
use super::sleepers::{register_in_turn, sleep, wake};
use super::steps::Steps;
use super::times::Times;
use super::value::Number;
use lot_command::Failure;
use lot_sync::{Lot, LotName};
use std::alloc::Global;
use std::sync::Wait;
use std::sync::atomic::AtomicU64;
use std::thread::{Threads, map_indices};
use std::time::Clock;

/// What the threads do.
#[derive(Clone, Copy)]
pub enum Stage {
    /// All register one after the other, and stay; the second sleeps while the others do.
    Register,
    /// All lock and unlock locks by chance.
    Pairs,
    /// Two meet at locks by chance, of which one sleeps for what the other owns.
    Sleep,
}

/// What a thread tells of it.
#[derive(Drop)]
pub enum Told {
    /// How many nanoseconds it took to register.
    Registered(u64),
    /// When its rounds began and ended.
    Worked(Stretch),
    /// How long after each unlock it owned the lock.
    Slept(Times),
    Nothing,
}

/// What the threads share.
#[derive(Drop)]
struct Shared {
    meeting: Meeting,
    steps: Steps,
    unlocked: AtomicU64,
}

/// The threads go through a stage, and each tells of it.
pub fn each_tells<N: LotName<Number> + Send + Sync, T: Threads + Wait + Clock + Sync>(
    rt: &T,
    alloc: Global,
    keys: &Keys,
    lot: &Lot<Number, N>,
    stage: Stage,
) -> Result<Vec<Told>, Failure>
    requires { lot.now.locks ≡ keys.now.locks }
{
    let shared = Shared {
        meeting: Meeting::new(keys.threads as u64),
        steps: Steps::new(),
        unlocked: AtomicU64::new(0),
    };
    let threads = match stage {
        Stage::Register | Stage::Pairs => keys.threads,
        Stage::Sleep => 2,
    };
    Ok(map_indices(
        rt,
        alloc,
        threads,
        &|worker: usize| -> Told
            requires { lot.now.locks ≡ keys.now.locks }
        { shared.go_through(stage, rt, alloc, keys, lot, worker) },
    )?)
}

impl Shared {
    /// What one thread does, and tells.
    fn go_through<N: LotName<Number> + Send, T: Wait + Clock>(
        &self,
        stage: Stage,
        rt: &T,
        alloc: Global,
        keys: &Keys,
        lot: &Lot<Number, N>,
        worker: usize,
    ) -> Told
        requires { lot.now.locks ≡ keys.now.locks }
    {
        let steps = &self.steps;
        match stage {
            Stage::Register => register_in_turn(rt, lot, steps, keys.threads, worker),
            Stage::Pairs => pairs_of(rt, keys, lot, &self.meeting, worker),
            Stage::Sleep if worker == 0 => wake(rt, lot, steps, &self.unlocked),
            Stage::Sleep => sleep(rt, alloc, lot, steps, &self.unlocked),
        }
    }
}

/// The longest `register`.
pub fn longest_of(told: &[Told]) -> u64 {
    let mut longest = 0;
    for one in told.iter() {
        if let Told::Registered(nanos) = one {
            longest = (*nanos).max(longest);
        }
    }
    longest
}

/// How many rounds the threads made, each so many, and in how many nanoseconds.
pub fn rounds_of(told: &[Told], each: u64) -> (u64, u64) {
    let (mut rounds, mut begin, mut end) = (0u64, u64::MAX, 0u64);
    for one in told.iter() {
        if let Told::Worked(one) = one {
            rounds = rounds.saturating_add(each);
            begin = begin.min(one.begin);
            end = end.max(one.end);
        }
    }
    (rounds, end.saturating_sub(begin))
}

/// How many nanoseconds it took from an unlock until the sleeper owned the lock, half of the times being shorter.
pub fn half_of(told: &[Told]) -> u64 {
    let mut half = 0;
    for one in told.iter() {
        if let Told::Slept(times) = one {
            half = times.part(500);
        }
    }
    half
}
