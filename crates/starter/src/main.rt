//! The smallest program on a lot: two threads raise one number under its lock, and the number is printed.
//!
//! `scripts/new NAME FOLDER` copies it with what it needs. Change `Number` and what it keeps, the keys of `run`, and
//! `work`; docs/USE.md goes through it.
#![tactic(auto)]

ghost use Rattle.std.specs.Prelude.{◌≡◌, ◌<◌, length};
ghost use Rattle.lot_sync.specs.Lot.{OwnsNone};
ghost use Rattle.lot_sync.specs.Opened.{IsNamed};

use lot_calls::{finish_with, start_with_passes, work_together};
use lot_command::{Failure, report};
use lot_sync::{Lot, LotName, Moment, Opened, Pass};
use lot_words::Keeps;
use std::alloc::Global;
use std::fmt::Write as _;
use std::marker::Brand;
use std::process::ExitCode;
use std::sync::Wait;
use std::thread::Threads;

/// How many threads there are.
const THREADS: usize = 2;

/// The key of the one lock.
const LOCK: usize = 0;

/// How often each thread raises the number.
const RAISES: u64 = 1000;

/// A number that never falls.
#[derive(Clone, Copy)]
struct Number {
    n: u64,
}

impl Keeps for Number {
    ghost use Rattle.std.specs.Prelude.{◌≤◌};
    ghost use Rattle.std.proofs.Common.{le_refl, le_trans};

    type Part = ();

    ghost keeps = { λ key number. Unit {0} };

    ghost grows = { λ old new. old.n ≤ new.n };

    ghost part = { λ thread number. tt };

    ghost grows_itself = { λ number. le_refl number.n };

    ghost grows_on = { λ x y z p q. le_trans p q };
}

fn main(rt: HostRuntime) -> ExitCode {
    let alloc = rt.alloc();
    let outcome = run(&rt, alloc);
    ExitCode::from(report(outcome, &mut rt.stdout(), &mut rt.stderr()))
}

/// Opens a lot with one lock, and names it.
fn run<T: Threads + Wait + Sync>(rt: &T, alloc: Global) -> Result<String, Failure> {
    let values = vec![in alloc; Number { n: 0 }; 1]?;
    match Lot::<Number, Brand>::open(alloc, THREADS, values, 0) {
        Ok(opened) => run_on::<Brand, T>(rt, alloc, opened),
        Err(_) => Err(Failure::NoMemory),
    }
}

/// Starts the lot with a pass for each thread, has the threads work, ends the lot, and tells the number.
fn run_on<N: LotName<Number> + Send + Sync, T: Threads + Wait + Sync>(
    rt: &T,
    alloc: Global,
    opened: Opened<Number>,
) -> Result<String, Failure>
    requires named { IsNamed N.LotName opened }
    requires sizes { (opened.threads ≡ THREADS) × (length opened.values ≡ 1) }
{
    let Ok((lot, passes)) = start_with_passes::<Number, N, T>(rt, alloc, THREADS, opened) else {
        return Err(Failure::NoMemory);
    };
    let raise_all = |pass: Pass<Number, N>| -> Pass<Number, N>
        requires { (LOCK < lot.locks) × OwnsNone pass }
        ensures { OwnsNone result }
    { work(rt, &lot, pass) };
    let (passes, worked) = work_together(rt, &raise_all, passes);
    let (values, _) = finish_with(rt, lot, passes);
    if !worked {
        return Err(Failure::CannotStartWorker);
    }
    let mut text = String::new(alloc);
    writeln!(text, "number {}", values[LOCK].n)?;
    Ok(text)
}

/// What each thread does with its pass.
fn work<N: LotName<Number> + Send, W: Wait>(
    rt: &W,
    lot: &Lot<Number, N>,
    pass: Pass<Number, N>,
) -> Pass<Number, N>
    requires locks { LOCK < lot.now.locks }
    requires free { OwnsNone pass }
    ensures { OwnsNone result }
{
    let mut pass = pass;
    for _ in 0..RAISES {
        pass = raise(rt, lot, pass);
    }
    pass
}

fn raise<N: LotName<Number> + Send, W: Wait>(
    rt: &W,
    lot: &Lot<Number, N>,
    pass: Pass<Number, N>,
) -> Pass<Number, N>
    requires locks { LOCK < lot.now.locks }
    requires free { OwnsNone pass }
    ensures { OwnsNone result }
{
    let (pass, mut held) = lot.lock(rt, pass, LOCK);
    let number = held.value_mut();
    number.n = number.n.saturating_add(1);
    let (pass, _) = lot.unlock(rt, pass, held, Moment { now: 0, word: 0 });
    pass
}
