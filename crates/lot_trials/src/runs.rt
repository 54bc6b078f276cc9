//! Two threads use a lot at once. When it is closed, their caller concludes from the contracts of the public calls
//! alone that all that was done with the lot is one run of the model, from its opening to a sound state.
ghost use Rattle.std.specs.Prelude.{◌≡◌, ◌≤◌, ◌<◌, length, vec_len, vec_capacity};
ghost use Rattle.lot_sync.specs.Lot.{OwnsNone};
ghost use Rattle.lot_sync.specs.Opened.{IsNamed};
ghost use Rattle.lot_trials.specs.Runs.{HasTurned, HasWholeRun};

use crate::asserts::{copies, equal, is_so};
use crate::pairs::{close_both, work_both};
use crate::passes::{Visitor, enter, open, start};
use crate::values::Number;
use lot_sync::{Lot, LotName, Moment, Opened, Pass};
use std::alloc::Global;
use std::marker::Brand;
use std::process::Abort;
use std::sync::Wait;
use std::test::*;
use std::thread::Threads;

impl<N: LotName<Number> + Send + Sync, T: Wait> Visitor<'_, Number, N, T> {
    /// Gets lock 0, counts the turn and lets the lock go: the pass shows how.
    fn turn(&self, pass: Pass<Number, N>) -> Pass<Number, N>
        requires free { OwnsNone pass }
        ensures { HasTurned pass.thread result }
    {
        let (pass, mut held) = self.lot.lock(self.rt, pass, 0);
        let turns = held.value_mut();
        turns.n = turns.n.wrapping_add(1);
        let (pass, _) = self
            .lot
            .unlock(self.rt, pass, held, Moment { now: 0, word: 7 });
        pass
    }
}

/// Two threads have a turn each, and the lot is closed: all that was done with it is one run of the model, from its
/// opening to a sound state in which nobody has a lock or waits, and each thread let a lock go.
fn turn_and_close<N: LotName<Number> + Send + Sync, T: Threads + Wait + Sync + Abort>(
    rt: &T,
    lot: Lot<Number, N>,
    first: Pass<Number, N>,
    second: Pass<Number, N>,
    passes: Vec<Pass<Number, N>>,
) -> Vec<Number>
    requires sizes { (lot.threads ≡ 2) × (N.threads ≡ 2) × (lot.locks ≡ 1) }
    requires threads { (first.thread < 2) × (second.thread < 2) }
    requires free { OwnsNone first × OwnsNone second }
    requires room { (vec_len passes ≡ 0) × (2 ≤ vec_capacity passes) }
    ensures long { vec_len result ≡ 1 }
    ensures run { HasWholeRun N.LotName }
{
    let visitor = Visitor { rt, lot: &lot };
    let turns = |pass: Pass<Number, N>| -> Pass<Number, N>
        requires { OwnsNone pass }
        ensures { HasTurned pass.thread result }
    { visitor.turn(pass) };
    let (first, second) = work_both(rt, &turns, &turns, first, second);
    close_both(rt, lot, first, second, passes).0
}

/// Starts what was opened, lets two threads have a turn each, and closes it. What was opened tells from where the one
/// run began.
fn one_run<N: LotName<Number> + Send + Sync, T: Threads + Wait + Sync + Abort>(
    rt: &T,
    alloc: Global,
    opened: Opened<Number>,
) -> Vec<Number>
    requires named { IsNamed N.LotName opened }
    requires sizes { (opened.threads ≡ 2) × (length opened.values ≡ 1) }
    ensures long { vec_len result ≡ 1 }
    ensures run { HasWholeRun opened }
{
    let (lot, passes) = start::<Number, N, T>(rt, alloc, 2, opened);
    let first = enter(rt, &lot);
    let second = enter(rt, &lot);
    turn_and_close(rt, lot, first, second, passes)
}

#[test]
fn all_that_was_done_is_one_run_of_the_model(rt: HostRuntime) {
    let turns = copies(&rt, rt.alloc(), Number { n: 0 }, 1);
    let opened = open(&rt, rt.alloc(), 2, turns, 0);
    let turns = one_run::<Brand, HostRuntime>(&rt, rt.alloc(), opened);
    is_so(&rt, turns.len() == 1, "one value comes back");
    equal(&rt, turns[0].n, 2);
}
