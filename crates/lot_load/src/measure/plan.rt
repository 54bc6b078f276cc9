//! What a crew is to do.
ghost use Rattle.std.specs.Prelude.{◌≤◌, ◌+◌};
ghost use Rattle.lot_core.specs.declared.state.TheConstants.{MAX_THREADS, MAX_KEYS};

use super::fair::{Fairness, Way};
use lot_command::number;
use lot_sync::{MAX_KEYS, MAX_THREADS};

/// The work of each thread.
#[derive(Clone, Copy)]
pub enum Job {
    /// So many rounds on locks by chance.
    Count(u64),
    /// Rounds on lock 0 for so many milliseconds.
    Share(u64),
    /// So many producers put so many times each, and the other threads take.
    Relay(usize, u64),
    /// Rounds on lock 0 for so many milliseconds, the lock being held for so many nanoseconds, and so many outside.
    Wait(u64, u64, u64),
    /// Rounds on locks by chance.
    Fair(Fairness),
    /// So many notifications each, where nobody waits.
    Notify(u64),
    /// So many turns each, one thread after the other.
    Turns(u64),
    /// A permit of one semaphore is got and given back, so many times each.
    Permits(u64),
    /// Nothing.
    Start,
}

/// How many threads, locks and conditions, how many permits the semaphore has where there is one, and the work.
#[derive(Clone, Copy)]
pub struct Plan {
    pub threads: usize,
    pub locks: usize,
    pub conds: usize,
    pub permits: Option<u32>,
    pub job: Job,
    ghost threads_fit: { (1 ≤ threads) × (threads ≤ MAX_THREADS) },
    ghost locks_fit: { (1 ≤ locks) × (locks + conds ≤ MAX_KEYS) },
}

impl Plan {
    /// How long the work goes on, in milliseconds, where it has a time.
    pub fn millis(&self) -> Option<u64> {
        match self.job {
            Job::Share(millis) | Job::Wait(_, _, millis) => Some(millis),
            Job::Fair(fairness) => Some(fairness.millis),
            _ => None,
        }
    }

    /// How often a consumer takes: together they take all that is put.
    pub fn taken(&self, producers: usize, rounds: u64, worker: usize) -> u64 {
        let consumers = self.threads.saturating_sub(producers).max(1) as u64;
        let all = (producers as u64).saturating_mul(rounds);
        let number = worker.saturating_sub(producers) as u64;
        let rest = if number < all % consumers { 1 } else { 0 };
        all / consumers + rest
    }
}

/// The most milliseconds of a run.
const MOST_MILLIS: u64 = 100_000;

/// The most nanoseconds of a section.
const MOST_NANOS: u64 = 1_000_000_000;

/// The most permits of the semaphore.
const MOST_PERMITS: u64 = 9_999;

/// The most rounds of a thread.
pub const MOST_ROUNDS: u64 = 1_000_000_000;

/// The plan that the words of a command line spell.
pub fn plan_of(words: &[&str]) -> Option<Plan> {
    let [command, numbers @ ..] = words else {
        return None;
    };
    match *command {
        "count" => counting(numbers),
        "share" => sharing(numbers),
        "relay" => relaying(numbers),
        "wait" => waiting(numbers),
        "fair" => sharing_fairly(numbers),
        "notify" => notifying(numbers),
        "turns" => taking_turns(numbers),
        "permits" => taking_permits(numbers),
        "start" => starting(numbers),
        _ => None,
    }
}

fn counting(numbers: &[&str]) -> Option<Plan> {
    let [threads, locks, rounds] = numbers else {
        return None;
    };
    let rounds = number(rounds, 0, MOST_ROUNDS)?;
    sized(threads, locks, Job::Count(rounds))
}

fn sharing(numbers: &[&str]) -> Option<Plan> {
    let [threads, millis] = numbers else {
        return None;
    };
    let millis = number(millis, 0, MOST_MILLIS)?;
    sized(threads, "1", Job::Share(millis))
}

fn relaying(numbers: &[&str]) -> Option<Plan> {
    let [producers, consumers, rounds] = numbers else {
        return None;
    };
    let producers = number(producers, 1, MAX_THREADS as u64)? as usize;
    let consumers = number(consumers, 1, MAX_THREADS as u64)? as usize;
    let rounds = number(rounds, 0, MOST_ROUNDS)?;
    if producers + consumers > MAX_THREADS {
        return None;
    }
    Some(Plan {
        threads: producers + consumers,
        locks: 1,
        conds: 2,
        permits: None,
        job: Job::Relay(producers, rounds),
    })
}

fn waiting(numbers: &[&str]) -> Option<Plan> {
    let [threads, held, outside, millis] = numbers else {
        return None;
    };
    let held = number(held, 0, MOST_NANOS)?;
    let outside = number(outside, 0, MOST_NANOS)?;
    let millis = number(millis, 0, MOST_MILLIS)?;
    sized(threads, "1", Job::Wait(held, outside, millis))
}

fn sharing_fairly(numbers: &[&str]) -> Option<Plan> {
    let [threads, locks, held, outside, millis, way] = numbers else {
        return None;
    };
    let fairness = Fairness {
        held: number(held, 0, MOST_NANOS)?,
        outside: number(outside, 0, MOST_NANOS)?,
        millis: number(millis, 0, MOST_MILLIS)?,
        way: way_of(way)?,
    };
    sized(threads, locks, Job::Fair(fairness))
}

fn way_of(word: &str) -> Option<Way> {
    match word {
        "clock" => Some(Way::Clock),
        "never" => Some(Way::Never),
        "always" => Some(Way::Always),
        _ => None,
    }
}

fn notifying(numbers: &[&str]) -> Option<Plan> {
    let [threads, rounds] = numbers else {
        return None;
    };
    let rounds = number(rounds, 0, MOST_ROUNDS)?;
    with_keys(threads, "1", 1, None, Job::Notify(rounds))
}

fn taking_turns(numbers: &[&str]) -> Option<Plan> {
    let [threads, rounds] = numbers else {
        return None;
    };
    let conds = number(threads, 1, MAX_THREADS as u64)? as usize;
    let rounds = number(rounds, 0, MOST_ROUNDS)?;
    with_keys(threads, "1", conds, None, Job::Turns(rounds))
}

fn taking_permits(numbers: &[&str]) -> Option<Plan> {
    let [threads, permits, rounds] = numbers else {
        return None;
    };
    let permits = number(permits, 1, MOST_PERMITS)? as u32;
    let rounds = number(rounds, 0, MOST_ROUNDS)?;
    with_keys(threads, "1", 0, Some(permits), Job::Permits(rounds))
}

fn starting(numbers: &[&str]) -> Option<Plan> {
    let [threads, locks] = numbers else {
        return None;
    };
    sized(threads, locks, Job::Start)
}

fn sized(threads: &str, locks: &str, job: Job) -> Option<Plan> {
    with_keys(threads, locks, 0, None, job)
}

/// A plan with conditions, and with one semaphore where it has permits.
fn with_keys(
    threads: &str,
    locks: &str,
    conds: usize,
    permits: Option<u32>,
    job: Job,
) -> Option<Plan> {
    let threads = number(threads, 1, MAX_THREADS as u64)? as usize;
    let locks = number(locks, 1, MAX_KEYS as u64)? as usize;
    if conds > MAX_KEYS - locks {
        return None;
    }
    Some(Plan {
        threads,
        locks,
        conds,
        permits,
        job,
    })
}
