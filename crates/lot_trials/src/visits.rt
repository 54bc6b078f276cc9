//! Threads share a lot whose values may be sent to a thread, and not be shared.
ghost use Rattle.std.specs.Prelude.{◌≡◌, ◌<◌, length};
ghost use Rattle.lot_sync.specs.Lot.{PassView, rested};
ghost use Rattle.lot_sync.specs.Opened.{IsNamed};

use crate::asserts::{equal, failed, is_so, room_for, started};
use crate::passes::{open, start};
use lot_calls::finish;
use lot_sync::{Lot, LotName, Moment, Opened};
use lot_words::Keeps;
use std::alloc::Global;
use std::cell::Cell;
use std::marker::Brand;
use std::process::Abort;
use std::sync::Wait;
use std::test::*;
use std::thread;
use std::thread::Threads;

/// How often a lock was visited. A reference changes it, so no two threads may have one at once.
struct Visits {
    number: Cell<u64>,
}

impl Drop for Visits {
    fn drop(self) {
        let Self { number } = self;
        drop(number);
    }
}

impl Keeps for Visits {
    type Part = ();

    ghost keeps = { λ key visits. Unit {0} };

    ghost grows = { λ old new. Unit {0} };

    ghost part = { λ thread visits. tt };

    ghost grows_itself = { λ visits. tt };

    ghost grows_on = { λ x y z p q. tt };
}

/// A value that counts its visits.
trait Visited: Keeps {
    fn visit(&self);
}

impl Visited for Visits {
    fn visit(&self) {
        self.number.set(self.number.get().wrapping_add(1));
    }
}

/// How often each thread visits.
const ROUNDS: u64 = 100;

/// Locks lock 0, visits its value and unlocks.
fn visit_often<V: Visited + Send, N: LotName<V> + Send + Sync, T: Wait + Abort>(
    rt: &T,
    lot: &Lot<V, N>,
)
    requires locks { 0 < lot.now.locks }
    requires rests { (p : PassView V) → V.rests (rested p) }
{
    let Ok(mut pass) = lot.register(rt) else {
        failed(rt, "no pass is in")
    };
    for _ in 0..ROUNDS {
        let (owner, held) = lot.lock(rt, pass, 0);
        held.value().visit();
        let (left, _) = lot.unlock(rt, owner, held, Moment { now: 0, word: 7 });
        pass = left;
    }
    lot.leave(rt, pass);
}

/// Two threads visit at once. All that is asked of the values is that they may be sent.
fn two_visit<V: Visited + Send, N: LotName<V> + Send + Sync, T: Threads + Wait + Sync + Abort>(
    rt: &T,
    lot: &Lot<V, N>,
)
    requires locks { 0 < lot.now.locks }
    requires rests { (p : PassView V) → V.rests (rested p) }
{
    thread::scope(
        thread::scope_env(),
        rt,
        |scope|
            requires locks { 0 < lot.now.locks }
            requires rests { (p : PassView V) → V.rests (rested p) }
        {
            for _ in 0..2u8 {
                let visits = move ||
                    requires locks { 0 < lot.now.locks }
                    requires rests { (p : PassView V) → V.rests (rested p) }
                { visit_often(rt, lot) };
                started(rt, scope.spawn(visits).is_ok());
            }
        },
    );
}

/// Starts the lot, lets two threads visit, and closes it.
fn play<V: Visited + Send, N: LotName<V> + Send + Sync, T: Threads + Wait + Sync + Abort>(
    rt: &T,
    alloc: Global,
    opened: Opened<V>,
) -> Vec<V>
    requires named { IsNamed N.LotName opened }
    requires sizes { (opened.threads ≡ 2) × (0 < length opened.values) }
    requires rests { (p : PassView V) → V.rests (rested p) }
{
    let (lot, passes) = start::<V, N, T>(rt, alloc, 2, opened);
    two_visit(rt, &lot);
    finish(rt, lot, passes).0
}

/// Opens a lot for two threads, with this value behind one lock.
fn on_visits<T: Threads + Wait + Sync + Abort>(
    rt: &T,
    alloc: Global,
    visits: Visits,
) -> Vec<Visits> {
    let mut values = room_for(rt, alloc, 1);
    values.push_reserved(visits);
    let opened = open(rt, alloc, 2, values, 1);
    play::<Visits, Brand, T>(rt, alloc, opened)
}

#[test]
fn threads_share_a_lot_whose_values_may_only_be_sent(rt: HostRuntime) {
    let visits = Visits {
        number: Cell::new(0),
    };
    let values = on_visits(&rt, rt.alloc(), visits);
    is_so(&rt, values.len() == 1, "one value comes back");
    equal(&rt, values[0].number.get(), 2 * ROUNDS);
}
