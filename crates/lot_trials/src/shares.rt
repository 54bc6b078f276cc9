//! A caller with parts: what a thread left of its own in a lock is there when it comes back, whoever came between.
ghost use Rattle.std.specs.Prelude.{◌≡◌, ◌≢◌, ◌+◌, ◌≤◌, ◌<◌, ℕ, length};
ghost use Rattle.lot_sync.specs.Lot.{OwnsNone, HasShape, HasSeen};
ghost use Rattle.lot_sync.specs.Opened.{IsNamed};
ghost use Rattle.lot_trials.specs.Shares.{own_share};

use crate::asserts::{copies, equal, is_so};
use crate::passes::{enter, open, start};
use lot_calls::finish;
use lot_sync::{Lot, LotName, Moment, Opened, Pass};
use lot_words::Keeps;
use std::alloc::Global;
use std::marker::Brand;
use std::process::Abort;
use std::sync::Wait;

/// What each of two threads counted.
#[derive(Clone, Copy)]
struct Shares {
    zero: u64,
    one: u64,
}

impl Keeps for Shares {
    ghost use Rattle.std.specs.Prelude.{ℕ, ◌≤◌};
    ghost use Rattle.std.proofs.Common.{le_refl, le_trans};
    ghost use Rattle.lot_trials.specs.Shares.{own_share};

    type Part = u64;

    ghost keeps = { λ key shares. Unit {0} };

    ghost grows = { λ old new. (old.zero ≤ new.zero) × (old.one ≤ new.one) };

    ghost part = { λ thread shares. own_share thread shares.zero shares.one };

    ghost grows_itself = { λ x. (le_refl x.zero, le_refl x.one) };

    ghost grows_on = { λ x y z a b. (le_trans a.0 b.0, le_trans a.1 b.1) };
}

/// The thread's own number.
fn own_of(shares: Shares, thread: usize) -> u64
    requires { thread < 2 }
    ensures { result ≡ own_share thread shares.zero shares.one }
{
    if thread == 0 { shares.zero } else { shares.one }
}

/// The thread counts one more.
fn raised(shares: Shares, thread: usize) -> Shares
    requires thread { thread < 2 }
    requires few { own_share thread shares.zero shares.one < 1000 }
    ensures own { own_share thread result.zero result.one ≡ own_share thread shares.zero shares.one + 1 }
    ensures grown { (shares.zero ≤ result.zero) × (shares.one ≤ result.one) }
    ensures others { (t : ℕ) → t ≢ thread → own_share t shares.zero shares.one ≡ own_share t result.zero result.one }
{
    if thread == 0 {
        Shares {
            zero: shares.zero + 1,
            one: shares.one,
        }
    } else {
        Shares {
            zero: shares.zero,
            one: shares.one + 1,
        }
    }
}

/// Locks lock 0, counts one more, unlocks, and answers the thread's own number that it left.
fn leave_own<N: LotName<Shares> + Send + Sync, T: Wait + Abort>(
    rt: &T,
    lot: &Lot<Shares, N>,
    pass: Pass<Shares, N>,
) -> (Pass<Shares, N>, u64)
    requires sizes { (0 < lot.now.locks) × (pass.thread < 2) }
    requires free { OwnsNone pass }
    ensures same { result.0.thread ≡ pass.thread }
    ensures free { OwnsNone result.0 }
    ensures shape { HasShape lot.now result.0 }
    ensures left { (u : Shares) → HasSeen result.0 0 u → own_share pass.thread u.zero u.one ≡ result.1 }
{
    let thread = pass.thread();
    let (pass, mut held) = lot.lock(rt, pass, 0);
    let found = *held.value();
    is_so(rt, own_of(found, thread) < 1000, "the share is small");
    let more = raised(found, thread);
    *held.value_mut() = more;
    let (pass, _) = lot.unlock(rt, pass, held, Moment { now: 0, word: 0 });
    (pass, own_of(more, thread))
}

/// Locks lock 0, unlocks, and answers the thread's own number that it found.
fn find_own<N: LotName<Shares> + Send + Sync, T: Wait>(
    rt: &T,
    lot: &Lot<Shares, N>,
    pass: Pass<Shares, N>,
) -> (Pass<Shares, N>, u64)
    requires sizes { (0 < lot.now.locks) × (pass.thread < 2) }
    requires free { OwnsNone pass }
    ensures free { OwnsNone result.0 }
    ensures found { (u : Shares) → HasSeen pass 0 u → own_share pass.thread u.zero u.one ≡ result.1 }
{
    let thread = pass.thread();
    let (pass, held) = lot.lock(rt, pass, 0);
    let found = *held.value();
    let (pass, _) = lot.unlock(rt, pass, held, Moment { now: 0, word: 0 });
    (pass, own_of(found, thread))
}

/// The first leaves its own number, another counts in between, and the first comes back: it finds its own number as it
/// left it.
fn come_back<N: LotName<Shares> + Send + Sync, T: Wait + Abort>(
    rt: &T,
    lot: &Lot<Shares, N>,
    first: Pass<Shares, N>,
    other: Pass<Shares, N>,
) -> (Pass<Shares, N>, Pass<Shares, N>, u64, u64)
    requires sizes { (0 < lot.now.locks) × (first.thread < 2) × (other.thread < 2) }
    requires free { OwnsNone first × OwnsNone other }
    ensures free { OwnsNone result.0 × OwnsNone result.1 }
    ensures there { result.3 ≡ result.2 }
{
    let (first, left) = leave_own(rt, lot, first);
    let (other, _) = leave_own(rt, lot, other);
    let (first, found) = find_own(rt, lot, first);
    (first, other, left, found)
}

fn play<N: LotName<Shares> + Send + Sync, T: Wait + Abort>(
    rt: &T,
    alloc: Global,
    opened: Opened<Shares>,
)
    requires named { IsNamed N.LotName opened }
    requires sizes { (opened.threads ≡ 2) × (length opened.values ≡ 1) }
{
    let (lot, passes) = start::<Shares, N, T>(rt, alloc, 2, opened);
    let zero = enter(rt, &lot);
    let one = enter(rt, &lot);
    let (zero, one, left, found) = come_back(rt, &lot, zero, one);
    equal(rt, (left, found), (1, 1));
    let (one, zero, left, found) = come_back(rt, &lot, one, zero);
    equal(rt, (left, found), (2, 2));
    lot.leave(rt, zero);
    lot.leave(rt, one);
    let (shares, _) = finish(rt, lot, passes);
    equal(rt, shares.len(), 1);
    equal(rt, (shares[0].zero, shares[0].one), (2, 2));
}

#[test]
fn what_a_thread_left_of_its_own_is_there(rt: HostRuntime) {
    let values = copies(&rt, rt.alloc(), Shares { zero: 0, one: 0 }, 1);
    let opened = open(&rt, rt.alloc(), 2, values, 0);
    play::<Brand, HostRuntime>(&rt, rt.alloc(), opened);
}
