//! `many` and `contend`: threads that count under many locks, each of which guards a number of its own.
ghost use Rattle.std.specs.Prelude.{◌≡◌, length};
ghost use Rattle.lot_sync.specs.Opened.{IsNamed};

use crate::contend::print_hottest;
use crate::measure::value::Number;
use crate::spread::{Draw, Spreading, print_total, spread};
use crate::workers::open;
use lot_calls::{finish_with, leave_all, start_counting_with_passes, start_with_passes, take_all};
use lot_command::Failure;
use lot_sync::{LotName, Opened};
use std::alloc::Global;
use std::marker::Brand;
use std::sync::Wait;
use std::thread::Threads;

/// What all locks counted together, and how many rounds the threads went, printed; and where some locks are hot, those
/// that were waited for most.
pub(crate) fn many<T: Threads + Wait + Sync>(
    rt: &T,
    alloc: Global,
    spreading: &Spreading,
    draw: Draw,
) -> Result<String, Failure> {
    let numbers = vec![in alloc; Number { n: 0 }; spreading.locks]?;
    let opened = open(alloc, spreading.threads, numbers, 0, &[])?;
    run::<Brand, T>(rt, alloc, spreading, draw, opened)
}

/// Starts the lot, lets the workers run, ends it, and prints what was counted. Where some locks are hot, the lot counts
/// who waits for which.
fn run<N: LotName<Number> + Send + Sync, T: Threads + Wait + Sync>(
    rt: &T,
    alloc: Global,
    spreading: &Spreading,
    draw: Draw,
    opened: Opened<Number>,
) -> Result<String, Failure>
    requires named { IsNamed N.LotName opened }
    requires sizes { (opened.threads ≡ spreading.now.threads) × (length opened.values ≡ spreading.now.locks) }
{
    let threads = spreading.threads;
    let mut text = String::new(alloc);
    if let Draw::Evenly = draw {
        let Ok((lot, passes)) = start_with_passes::<Number, N, T>(rt, alloc, threads, opened) else {
            return Err(Failure::NoMemory);
        };
        let (passes, gone) = spread(rt, &lot, spreading, draw, passes);
        let (numbers, _) = finish_with(rt, lot, passes);
        print_total(&mut text, "keys", numbers.as_slice(), gone?)?;
        return Ok(text);
    }
    let started = start_counting_with_passes::<Number, N, T>(rt, alloc, threads, opened);
    let Ok((mut lot, passes)) = started else {
        return Err(Failure::NoMemory);
    };
    let (passes, gone) = spread(rt, &lot, spreading, draw, passes);
    let mut passes = leave_all(rt, &lot, passes);
    take_all(rt, &mut lot, &mut passes);
    let (numbers, _, counts) = lot.close_counted(rt, passes);
    print_total(&mut text, "locks", numbers.as_slice(), gone?)?;
    print_hottest(alloc, &mut text, counts.as_slice())?;
    Ok(text)
}
