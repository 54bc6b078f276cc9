//! A pool of workers with a queue of tasks: each task is taken once, none is lost, and what is done is counted.
ghost use Rattle.std.specs.Prelude.{◌≡◌, ◌<◌, ◌≤◌, IfOk, Some, length, slice_get, vec_len, vec_capacity};
ghost use Rattle.lot_sync.specs.Lot.{HasSeen};
ghost use Rattle.lot_sync.specs.Opened.{IsNamed};
ghost use Rattle.gallery.specs.Tasks.{HasEachOnce, IsNew, AllDone, Takes, Finishes, IsWorker, HasInHand, HasWaited};
ghost use Rattle.gallery.specs.Tasks.{in_hand_of, AllBelow};

use crate::crew::{NOW, open};
use lot_calls::{close_with, start_with_room, take_all, work_all};
use lot_command::Failure;
use lot_regions::{Ready, change, when};
use lot_sync::{Lot, LotName, Opened, Pass};
use lot_words::Keeps;
use std::alloc::{AllocError, Global};
use std::collections::VecDeque;
use std::marker::Brand;
use std::sync::Wait;
use std::thread::Threads;

/// The tasks are the numbers below this.
const TASKS: usize = 200;

const WORKERS: usize = 4;

/// The lock of the pool, and its condition: each task was done.
const POOL: usize = 0;

const ALL_DONE: usize = 1;

/// The tasks that lie in the queue, the oldest first; which each worker has in hand, `TASKS` where it has none; and how
/// often each was done.
#[derive(Drop)]
pub struct Pool {
    tasks: VecDeque<usize>,
    in_hand: [usize; WORKERS],
    times: Vec<u64>,
}

impl Keeps for Pool {
    ghost use Rattle.gallery.specs.Tasks.{HasEachOnce, in_hand_of};

    type Part = usize;

    ghost keeps = { λ key pool. HasEachOnce pool };

    ghost part = { in_hand_of };

    ghost grows_itself = { λ pool. tt };

    ghost grows_on = { λ x y z p q. tt };
}

impl Ready for Pool {
    ghost use Rattle.lot_regions.specs.Conds.{first_cond, behind_cond};
    ghost use Rattle.lot_regions.proofs.Conds.{conds_apart};
    ghost use Rattle.gallery.specs.Tasks.{are_done};

    ghost first = { first_cond 1 1 };

    ghost behind = { behind_cond 1 1 };

    ghost ready = { λ cond pool. are_done pool.times.items };

    fn first_of(key: usize) -> usize {
        ALL_DONE + key
    }

    fn behind_of(key: usize) -> usize {
        ALL_DONE + key + 1
    }

    fn is_ready(&self, cond: usize) -> bool {
        self.times.iter().all(|times| *times > 0)
    }

    ghost apart = { conds_apart 1 1 };
}

impl Pool {
    /// The worker, who has none, takes the oldest task, where one lies there.
    fn take(&mut self, thread: usize) -> Option<usize>
        requires thread { thread < WORKERS }
        requires whole { HasEachOnce self.old }
        requires idle { in_hand_of thread self.old ≡ TASKS }
        ensures { Takes thread self.old result self.new }
    {
        let task = self.tasks.pop_front()?;
        self.in_hand[thread] = task;
        Some(task)
    }

    /// The worker has done its task, if any.
    fn finish(&mut self, thread: usize)
        requires thread { thread < WORKERS }
        requires whole { HasEachOnce self.old }
        ensures { Finishes thread self.old self.new }
    {
        let task = self.in_hand[thread];
        self.in_hand[thread] = TASKS;
        if task < TASKS {
            self.times[task] += 1;
        }
    }
}

/// The right of a worker.
type Worker<N> = Pass<Pool, N>;

/// Takes the oldest task, where one lies there: the worker has it in hand then.
pub fn take<N: LotName<Pool> + Send, T: Wait>(
    rt: &T,
    lot: &Lot<Pool, N>,
    pass: Worker<N>,
) -> (Worker<N>, Option<usize>)
    requires worker { IsWorker lot.now pass }
    requires idle { HasInHand pass TASKS }
    ensures worker { IsWorker lot.now result.0 × (result.0.thread ≡ pass.thread) }
    ensures takes { (before : Pool) × (after : Pool) × HasSeen result.0 POOL after
        × Takes pass.thread before result.1 after }
{
    let thread = pass.thread();
    change(rt, lot, pass, POOL, NOW, |pool| pool.take(thread))
}

/// The worker has done the task that it has in hand, if any.
pub fn finish<N: LotName<Pool> + Send, T: Wait>(
    rt: &T,
    lot: &Lot<Pool, N>,
    pass: Worker<N>,
) -> Worker<N>
    requires worker { IsWorker lot.now pass }
    ensures worker { IsWorker lot.now result × (result.thread ≡ pass.thread) }
    ensures idle { HasInHand result TASKS }
    ensures finishes { (before : Pool) × (after : Pool) × HasSeen result POOL after
        × HasInHand pass (in_hand_of pass.thread before) × Finishes pass.thread before after }
{
    let thread = pass.thread();
    change(rt, lot, pass, POOL, NOW, |pool| pool.finish(thread)).0
}

/// A worker does tasks as long as some lie there, and then waits until all are done: for those alone that others have
/// in hand, who have begun and don't wait.
fn work<N: LotName<Pool> + Send, T: Wait>(rt: &T, lot: &Lot<Pool, N>, pass: Worker<N>) -> Worker<N>
    requires worker { IsWorker lot.now pass }
    ensures { HasWaited lot.now pass result }
{
    let mut pass = pass;
    for _ in rt.forever() {
        let (taken, task) = take(rt, lot, finish(rt, lot, pass));
        pass = taken;
        if task.is_none() {
            return when(rt, lot, pass, POOL, ALL_DONE, NOW, |_| {}).0;
        }
    }
    unreachable!()
}

/// The workers do all tasks, and the lot ends: each task was done once.
pub fn do_all<N: LotName<Pool> + Send + Sync, T: Threads + Wait + Sync>(
    rt: &T,
    mut lot: Lot<Pool, N>,
    mut passes: Vec<Worker<N>>,
) -> Vec<Pool>
    requires sizes { (lot.locks ≡ 1) × (lot.conds ≡ 1) × (lot.threads ≡ WORKERS) }
    requires room { (vec_len passes ≡ 0) × (lot.threads ≤ vec_capacity passes) }
    ensures one { vec_len result ≡ 1 }
    ensures done { (pool : Pool) → slice_get result.items POOL ≡ Some pool → AllDone pool }
{
    take_all(rt, &mut lot, &mut passes);
    let do_tasks = |pass: Worker<N>| -> Worker<N>
        requires { IsWorker lot pass }
        ensures { HasWaited lot pass result }
    { work(rt, &lot, pass) };
    work_all(rt, &do_tasks, &mut passes);
    close_with(rt, lot, passes).0
}

/// All tasks, in order.
fn all_tasks(alloc: Global) -> Result<VecDeque<usize>, AllocError>
    ensures { IfOk result (λ tasks. AllBelow TASKS tasks.items) }
{
    let mut tasks = VecDeque::with_capacity(alloc, TASKS)?;
    for task in 0..TASKS {
        tasks.push_back_reserved(task);
    }
    Ok(tasks)
}

/// All tasks lie there.
fn new_pool(alloc: Global) -> Result<Pool, AllocError>
    ensures whole { IfOk result HasEachOnce }
    ensures new { IfOk result IsNew }
{
    Ok(Pool {
        tasks: all_tasks(alloc)?,
        in_hand: [TASKS; WORKERS],
        times: vec![in alloc; 0; TASKS]?,
    })
}

/// Workers do all tasks. Answers how many were done just once.
pub fn run<T: Threads + Wait + Sync>(rt: &T, alloc: Global) -> Result<u64, Failure> {
    let mut values = Vec::with_capacity(alloc, 1)?;
    values.push_reserved(new_pool(alloc)?);
    let opened = open(alloc, WORKERS, values, 1, &[])?;
    run_on::<Brand, T>(rt, alloc, opened)
}

fn run_on<N: LotName<Pool> + Send + Sync, T: Threads + Wait + Sync>(
    rt: &T,
    alloc: Global,
    opened: Opened<Pool>,
) -> Result<u64, Failure>
    requires named { IsNamed N.LotName opened }
    requires sizes { (opened.threads ≡ WORKERS) × (length opened.values ≡ 1) × (opened.conds ≡ 1) }
{
    let Ok((lot, room)) = start_with_room::<Pool, N>(alloc, WORKERS, opened) else {
        return Err(Failure::NoMemory);
    };
    let pools = do_all(rt, lot, room);
    let once = |times: &&u64| **times == 1;
    Ok(pools[POOL].times.iter().filter(once).count() as u64)
}
