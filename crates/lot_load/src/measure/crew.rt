//! A crew: the threads of a plan work on one lot, and end.
ghost use Rattle.std.specs.Prelude.{◌≡◌, length};
ghost use Rattle.lot_sync.specs.Lot.{OwnsNone};
ghost use Rattle.lot_sync.specs.Opened.{IsNamed};

use super::clock::now;
use super::meeting::Meeting;
use super::member::Member;
use super::plan::{Job, Plan};
use super::relay::Side;
use super::summary::{Done, Summary};
use super::times::Times;
use super::value::{Number, sum_of};
use lot_calls::{finish, start_with_room};
use lot_command::Failure;
use lot_sync::{Lot, LotName, Opened, Pass};
use std::alloc::Global;
use std::marker::Brand;
use std::sync::Wait;
use std::thread::{Threads, map_indices};
use std::time::{Clock, Duration};

/// Opens a lot, lets the crew work, closes the lot, and answers what was done.
pub fn run<T: Threads + Wait + Clock + Sync>(
    rt: &T,
    alloc: Global,
    plan: &Plan,
) -> Result<Summary, Failure> {
    let begin = now(rt);
    let values = vec![in alloc; Number { n: 0 }; plan.locks]?;
    let permits = plan.permits.as_slice();
    match Lot::<Number, Brand>::open_with(alloc, plan.threads, values, plan.conds, permits) {
        Ok(opened) => run_on::<Brand, T>(rt, alloc, plan, opened, begin),
        Err(_) => Err(Failure::NoMemory),
    }
}

fn run_on<N: LotName<Number> + Send + Sync, T: Threads + Wait + Clock + Sync>(
    rt: &T,
    alloc: Global,
    plan: &Plan,
    opened: Opened<Number>,
    begin: u64,
) -> Result<Summary, Failure>
    requires named { IsNamed N.LotName opened }
    requires sizes { (opened.threads ≡ plan.now.threads) × (length opened.values ≡ plan.now.locks) }
{
    let Ok((lot, passes)) = start_with_room::<Number, N>(alloc, plan.threads, opened) else {
        return Err(Failure::NoMemory);
    };
    let done = work_all(rt, alloc, plan, &lot);
    let (values, _) = finish(rt, lot, passes);
    let mut summary = Summary::new(alloc, done?, begin, now(rt))?;
    summary.sum = sum_of(values.as_slice());
    Ok(summary)
}

/// Runs the crew to its end; where the work has a time, one thread more sleeps for so long.
fn work_all<N: LotName<Number> + Send + Sync, T: Threads + Wait + Clock + Sync>(
    rt: &T,
    alloc: Global,
    plan: &Plan,
    lot: &Lot<Number, N>,
) -> Result<Vec<Option<Done>>, Failure>
    requires { lot.now.locks ≡ plan.now.locks }
{
    let all = match plan.millis() {
        Some(_) => plan.threads + 1,
        None => plan.threads,
    };
    let meeting = Meeting::new(all as u64);
    Ok(map_indices(
        rt,
        alloc,
        all,
        &|worker: usize| -> Option<Done>
            requires { lot.now.locks ≡ plan.now.locks }
        {
            match plan.millis() {
                Some(millis) if worker == plan.threads => {
                    meeting.join();
                    rt.sleep(Duration::from_millis(millis));
                    meeting.end();
                    None
                }
                _ => work(rt, alloc, plan, lot, &meeting, worker),
            }
        },
    )?)
}

/// One thread: it registers, meets the others, works, and leaves.
fn work<N: LotName<Number> + Send, T: Wait + Clock>(
    rt: &T,
    alloc: Global,
    plan: &Plan,
    lot: &Lot<Number, N>,
    meeting: &Meeting,
    worker: usize,
) -> Option<Done>
    requires { lot.now.locks ≡ plan.now.locks }
{
    let registered = lot.register(rt);
    meeting.join();
    let Ok(pass) = registered else {
        return None;
    };
    let Ok(mut times) = Times::new(alloc) else {
        lot.leave(rt, pass);
        return None;
    };
    let member = Member {
        rt,
        lot,
        meeting,
        worker,
    };
    let begin = now(rt);
    let (pass, rounds) = member.go(plan, pass, &mut times);
    let end = now(rt);
    lot.leave(rt, pass);
    Some(Done {
        begin,
        end,
        rounds,
        times,
    })
}

impl<N: LotName<Number> + Send, T: Wait + Clock> Member<'_, N, T> {
    /// The work of the plan.
    fn go(&self, plan: &Plan, pass: Pass<Number, N>, times: &mut Times) -> (Pass<Number, N>, u64)
        requires free { OwnsNone pass }
        ensures { OwnsNone result.0 }
    {
        let (lot, worker) = (self.lot, self.worker);
        match plan.job {
            Job::Count(rounds) => (self.count(pass, rounds), rounds),
            Job::Share(_) => self.share(pass),
            Job::Wait(held, outside, _) => {
                let pass = self.wait(pass, (held, outside), times);
                (pass, times.count())
            }
            Job::Fair(fairness) => self.fair(pass, &fairness, times),
            Job::Relay(producers, rounds) if lot.locks() == 1 && lot.conds() == 2 => {
                if worker < producers {
                    (self.take_part(Side::Producer, pass, rounds), rounds)
                } else {
                    let taken = plan.taken(producers, rounds, worker);
                    (self.take_part(Side::Consumer, pass, taken), 0)
                }
            }
            Job::Notify(rounds) if lot.conds() > 0 => (self.notify(pass, rounds), rounds),
            Job::Turns(rounds) if lot.locks() == 1 && worker < lot.conds() => {
                (self.take_turns(pass, rounds), rounds)
            }
            Job::Permits(rounds) if lot.locks() == 1 && lot.conds() == 0 && lot.sems() > 0 => {
                (self.take_permits(pass, rounds), rounds)
            }
            Job::Relay(..) | Job::Notify(_) | Job::Turns(_) | Job::Permits(_) | Job::Start => {
                (pass, 0)
            }
        }
    }
}
