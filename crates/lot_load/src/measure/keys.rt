//! A lot of many locks: how long it takes to open, to register in, to lock by chance, from an unlock to its sleeper,
//! and to close.
ghost use Rattle.std.specs.Prelude.{◌≡◌, ◌≤◌, ◌<◌, length};
ghost use Rattle.lot_core.specs.declared.state.TheConstants.{MAX_THREADS};
ghost use Rattle.lot_sync.specs.Opened.{IsNamed};
ghost use Rattle.lot_load.specs.declared.spread.TheConstants.{MOST_LOCKS};

use super::clock::now;
use super::meeting::Meeting;
use super::member::Member;
use super::plan::MOST_ROUNDS;
use super::stages::{Stage, Told, each_tells, half_of, longest_of, rounds_of};
use super::summary::{begin_line, push_figures};
use super::value::{Number, sum_of};
use crate::spread::MOST_LOCKS;
use crate::workers::open;
use lot_calls::{finish, start_with_room};
use lot_command::{Failure, number};
use lot_sync::{Lot, LotName, MAX_THREADS, Opened};
use std::alloc::Global;
use std::marker::Brand;
use std::sync::Wait;
use std::thread::Threads;
use std::time::Clock;

/// How many threads and locks, and how many rounds of each thread.
#[derive(Clone, Copy)]
pub struct Keys {
    pub threads: usize,
    pub locks: usize,
    pub rounds: u64,
    ghost threads_fit: { (1 ≤ threads) × (threads ≤ MAX_THREADS) },
    ghost locks_fit: { (1 ≤ locks) × (locks ≤ MOST_LOCKS) },
}

/// What came of it: the sum of the locks' numbers, the rounds of all threads, and times in nanoseconds.
#[derive(Clone, Copy)]
pub struct Figures {
    pub sum: u64,
    pub rounds: u64,
    /// From the begin of the first thread's rounds to the end of the last one's.
    pub nanos: u64,
    /// From before the values are made until the lot is started; and from before the lot ends until all values came
    /// back.
    pub open: u64,
    pub close: u64,
    /// The longest `register`, where the threads register one after the other and one sleeps meanwhile.
    pub register: u64,
    /// From an unlock to the owning of the thread that slept, half of the times being shorter; 0 for one thread.
    pub sleeper: u64,
}

/// When the rounds of a thread began and ended.
#[derive(Clone, Copy)]
pub struct Stretch {
    pub begin: u64,
    pub end: u64,
}

/// What the words after `keys` ask for.
pub fn keys_of(numbers: &[&str]) -> Option<Keys> {
    let [threads, locks, rounds] = numbers else {
        return None;
    };
    Some(Keys {
        threads: number(threads, 1, MAX_THREADS as u64)? as usize,
        locks: number(locks, 1, MOST_LOCKS as u64)? as usize,
        rounds: number(rounds, 0, MOST_ROUNDS)?,
    })
}

/// Opens a lot, measures it, and closes it.
pub fn measure_keys<T: Threads + Wait + Clock + Sync>(
    rt: &T,
    alloc: Global,
    keys: &Keys,
) -> Result<Figures, Failure> {
    let begin = now(rt);
    let values = vec![in alloc; Number { n: 0 }; keys.locks]?;
    let opened = open(alloc, keys.threads, values, 0, &[])?;
    run_on::<Brand, T>(rt, alloc, keys, opened, begin)
}

fn run_on<N: LotName<Number> + Send + Sync, T: Threads + Wait + Clock + Sync>(
    rt: &T,
    alloc: Global,
    keys: &Keys,
    opened: Opened<Number>,
    begin: u64,
) -> Result<Figures, Failure>
    requires named { IsNamed N.LotName opened }
    requires sizes { (opened.threads ≡ keys.now.threads) × (length opened.values ≡ keys.now.locks) }
{
    let Ok((lot, passes)) = start_with_room::<Number, N>(alloc, keys.threads, opened) else {
        return Err(Failure::NoMemory);
    };
    let open = now(rt).wrapping_sub(begin);
    let worked = work_all(rt, alloc, keys, &lot);
    let begin = now(rt);
    let (values, _) = finish(rt, lot, passes);
    let close = now(rt).wrapping_sub(begin);
    let mut figures = worked?;
    figures.open = open;
    figures.close = close;
    figures.sum = sum_of(values.as_slice());
    Ok(figures)
}

/// All that is measured of an open lot.
fn work_all<N: LotName<Number> + Send + Sync, T: Threads + Wait + Clock + Sync>(
    rt: &T,
    alloc: Global,
    keys: &Keys,
    lot: &Lot<Number, N>,
) -> Result<Figures, Failure>
    requires { lot.now.locks ≡ keys.now.locks }
{
    let registered = each_tells(rt, alloc, keys, lot, Stage::Register)?;
    let register = longest_of(registered.as_slice());
    let worked = each_tells(rt, alloc, keys, lot, Stage::Pairs)?;
    let (rounds, nanos) = rounds_of(worked.as_slice(), keys.rounds);
    let sleeper = if lot.threads() < 2 {
        0
    } else {
        half_of(each_tells(rt, alloc, keys, lot, Stage::Sleep)?.as_slice())
    };
    Ok(Figures {
        sum: 0,
        rounds,
        nanos,
        open: 0,
        close: 0,
        register,
        sleeper,
    })
}

/// One thread: it registers, meets the others, makes its rounds, and leaves.
pub fn pairs_of<N: LotName<Number> + Send, T: Wait + Clock>(
    rt: &T,
    keys: &Keys,
    lot: &Lot<Number, N>,
    meeting: &Meeting,
    worker: usize,
) -> Told
    requires { lot.now.locks ≡ keys.now.locks }
{
    let registered = lot.register(rt);
    meeting.join();
    let Ok(pass) = registered else {
        return Told::Nothing;
    };
    let member = Member {
        rt,
        lot,
        meeting,
        worker,
    };
    let begin = now(rt);
    let pass = member.count(pass, keys.rounds);
    let end = now(rt);
    lot.leave(rt, pass);
    Told::Worked(Stretch { begin, end })
}

impl Figures {
    /// The line, after the words of the command.
    pub fn line(&self, alloc: Global, words: &[&str]) -> Result<String, Failure> {
        let mut text = begin_line(alloc, words)?;
        let figures = [
            ("sum", self.sum),
            ("rounds", self.rounds),
            ("ns", self.nanos),
            ("open", self.open),
            ("close", self.close),
            ("register", self.register),
            ("sleeper", self.sleeper),
        ];
        push_figures(&mut text, &figures)?;
        text.push('\n')?;
        Ok(text)
    }
}
