//! Schedules: what threads do on a lot one after the other, row by row, and what each row leaves.
ghost use Rattle.std.specs.Prelude.{◌≡◌, ◌≤◌, length, vec_len, vec_capacity, IfOk};
ghost use Rattle.lot_sync.specs.Opened.{IsNamed, HasNumbersOf};
ghost use Rattle.lot_trials.specs.Schedules.{HasSizes};

use crate::asserts::{equal, failed, is_so};
use crate::counts::{Count, Gathered, end};
use crate::standing::{OnLot, Standing};
use crate::steps::{
    CONDS, LOCKS, Memory, PERMITS, Progress, Step, allow_next, may_be_made, may_be_refused,
};
use lot_sync::{Lot, LotName, OpenFault, Opened, Pass};
use std::alloc::Global;
use std::marker::Brand;
use std::process::Abort;
use std::sync::Wait;
use std::sync::atomic::{AtomicU64, Ordering};
use std::thread;
use std::thread::Threads;

impl<N: LotName<Count> + Send + Sync, T: Wait + Abort> OnLot<'_, N, T> {
    /// Makes a row before which all are made.
    fn make_row(&self, standing: Standing<N>, step: Step) -> Standing<N> {
        if step.sleeps() {
            allow_next(self.progress);
            return self.make_step(standing, step);
        }
        let then = self.make_step(standing, step);
        allow_next(self.progress);
        then
    }

    /// Makes the rows of one thread, which has left then.
    fn make_rows(&self, rows: &[(usize, Step)], number: usize) {
        let mut standing = Standing::Out;
        for row in 0..rows.len() {
            let (who, step) = rows[row];
            if who == number && may_be_made(self.rt, self.progress, row) {
                standing = self.make_row(standing, step);
            }
        }
        if self.progress.given_up.load(Ordering::SeqCst) != 0 {
            self.give_up(standing);
            return;
        }
        match standing {
            Standing::Out => {}
            _ => failed(self.rt, "a thread has its pass still"),
        }
    }
}

impl<N: LotName<Count> + Send + Sync, T: Threads + Wait + Sync + Abort> OnLot<'_, N, T> {
    /// Starts a thread for each that has a row, and waits for their end.
    fn make_all_rows(&self, rows: &[(usize, Step)]) {
        let threads = threads_of(rows);
        thread::scope(thread::scope_env(), self.rt, |scope| {
            for number in 0..threads {
                let job = move || self.make_rows(rows, number);
                if scope.spawn(job).is_err() {
                    may_be_refused(self.rt, self.progress.memory);
                    self.progress.given_up.store(1, Ordering::SeqCst);
                }
            }
        });
    }
}

/// How many threads have rows.
fn threads_of(rows: &[(usize, Step)]) -> usize {
    let mut threads = 0;
    for (number, _) in rows {
        if *number >= threads {
            threads = number.saturating_add(1);
        }
    }
    threads
}

/// A lot's schedule.
#[derive(Clone, Copy)]
pub(crate) struct Schedule<'a> {
    /// For how many threads the lot is.
    pub(crate) threads: usize,
    /// Which thread makes which step, one row after the other.
    pub(crate) rows: &'a [(usize, Step)],
    /// How the passes are had at the end.
    pub(crate) how: Gathered,
    /// How many waits end on the first condition, and on the last.
    pub(crate) waits: (u64, u64),
    /// Whether it may be given up.
    pub(crate) memory: Memory,
}

/// The first six threads register, each when those before have.
static COMINGS: [(usize, Step); 6] = [
    (0, Step::Register(0)),
    (1, Step::Register(1)),
    (2, Step::Register(2)),
    (3, Step::Register(3)),
    (4, Step::Register(4)),
    (5, Step::Register(5)),
];

/// The rows by which the first so many threads register, one after the other.
pub(crate) fn come(threads: usize) -> &'static [(usize, Step)]
    requires { threads ≤ 6 }
{
    &COMINGS[..threads]
}

/// The first six threads leave, one after the other.
static LEAVINGS: [(usize, Step); 6] = [
    (0, Step::Leave),
    (1, Step::Leave),
    (2, Step::Leave),
    (3, Step::Leave),
    (4, Step::Leave),
    (5, Step::Leave),
];

/// The rows by which the first so many threads leave, one after the other.
pub(crate) fn leave(threads: usize) -> &'static [(usize, Step)]
    requires { threads ≤ 6 }
{
    &LEAVINGS[..threads]
}

/// Makes the rows, part after part, on a lot for so many threads, in which so many waits end on the first condition,
/// and on the last.
pub(crate) fn on_lot<T: Threads + Wait + Sync + Abort>(
    rt: &T,
    alloc: Global,
    threads: usize,
    parts: &[&[(usize, Step)]],
    waits: (u64, u64),
    memory: Memory,
) {
    let mut rows = Vec::new(alloc);
    for part in parts {
        if rows.extend_from_slice(part).is_err() {
            may_be_refused(rt, memory);
            return;
        }
    }
    let schedule = Schedule {
        threads,
        rows: rows.as_slice(),
        how: Gathered::Left,
        waits,
        memory,
    };
    follow(rt, alloc, schedule);
}

/// Makes the schedule on a lot of its own, which is closed then.
pub(crate) fn follow<T: Threads + Wait + Sync + Abort>(
    rt: &T,
    alloc: Global,
    schedule: Schedule<'_>,
) {
    let Ok(mut values) = vec![in alloc; Count { n: 7 }; LOCKS] else {
        may_be_refused(rt, schedule.memory);
        return;
    };
    values[1] = Count { n: 8 };
    let values = match Lot::<Count, Brand>::open_with(
        alloc,
        schedule.threads,
        values,
        CONDS,
        &PERMITS,
    ) {
        Ok(opened) => follow_on::<Brand, T>(rt, alloc, opened, schedule),
        Err((fault, values)) => {
            equal(rt, fault, OpenFault::NoMemory);
            may_be_refused(rt, schedule.memory);
            values
        }
    };
    is_so(rt, values.len() == LOCKS, "all values come back");
    equal(rt, values[1].n, 8);
}

/// Makes the schedule on the lot, which is closed then.
fn follow_on<N: LotName<Count> + Send + Sync, T: Threads + Wait + Sync + Abort>(
    rt: &T,
    alloc: Global,
    opened: Opened<Count>,
    schedule: Schedule<'_>,
) -> Vec<Count>
    requires named { IsNamed N.LotName opened }
    requires sizes { (opened.threads ≡ schedule.threads) × (length opened.values ≡ 14) × (opened.conds ≡ 13)
        × (length opened.permits ≡ 2) }
{
    match try_start::<N, T>(rt, alloc, schedule.threads, opened, schedule.memory) {
        Ok((lot, passes)) => followed(rt, lot, passes, schedule),
        Err(values) => values,
    }
}

/// Starts the lot, with room for its passes. Where memory is refused, which it may be, the values come back.
pub(crate) fn try_start<N: LotName<Count> + Send + Sync, T: Abort>(
    rt: &T,
    alloc: Global,
    threads: usize,
    opened: Opened<Count>,
    memory: Memory,
) -> Result<(Lot<Count, N>, Vec<Pass<Count, N>>), Vec<Count>>
    requires named { IsNamed N.LotName opened }
    ensures lot { IfOk result (λ r. HasNumbersOf opened r.0) }
    ensures room { IfOk result (λ r. (vec_len r.1 ≡ 0) × (threads ≤ vec_capacity r.1)) }
{
    let Ok(passes) = Vec::with_capacity(alloc, threads) else {
        may_be_refused(rt, memory);
        return Err(opened.close());
    };
    match opened.start::<N>(alloc) {
        Ok(lot) => Ok((lot, passes)),
        Err((fault, values)) => {
            passes.destroy_empty();
            equal(rt, fault, OpenFault::NoMemory);
            may_be_refused(rt, memory);
            Err(values)
        }
    }
}

/// Makes the schedule, closes the lot, and looks at its ledger.
fn followed<N: LotName<Count> + Send + Sync, T: Threads + Wait + Sync + Abort>(
    rt: &T,
    lot: Lot<Count, N>,
    passes: Vec<Pass<Count, N>>,
    schedule: Schedule<'_>,
) -> Vec<Count>
    requires sizes { HasSizes lot × (lot.threads ≡ schedule.threads) }
    requires room { (vec_len passes ≡ 0) × (schedule.threads ≤ vec_capacity passes) }
{
    let progress = Progress {
        memory: schedule.memory,
        given_up: AtomicU64::new(0),
        next_row: AtomicU64::new(0),
        gate: AtomicU64::new(0),
        met: AtomicU64::new(0),
    };
    let on_lot = OnLot {
        rt,
        lot: &lot,
        progress: &progress,
    };
    on_lot.make_all_rows(schedule.rows);
    let (values, ledger) = end(rt, lot, passes, schedule.threads, schedule.how);
    equal(rt, (ledger.called[0], ledger.called[12]), schedule.waits);
    equal(rt, (ledger.woken[0], ledger.woken[12]), schedule.waits);
    values
}
