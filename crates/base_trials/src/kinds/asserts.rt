//! Assertions as calls: what a macro writes at its place would be checked with all that the schedule around it knows.
ghost use Rattle.std.specs.Prelude.{◌≡◌, false};

use crate::asserts::equal;
use lot_locks::Released;
use lot_park::Parked;
use lot_waits::Ledger;
use std::process::Abort;

/// It is not so, or the test fails.
pub(crate) fn is_not(rt: &impl Abort, is_so: bool)
    ensures { is_so ≡ false }
{
    assert!(rt; !is_so);
}

/// So many were found, or the test fails.
pub(crate) fn count_is(rt: &impl Abort, count: usize, wanted: usize)
    ensures { count ≡ wanted }
{
    assert_eq!(rt; count, wanted);
}

/// The lock was released so, or the test fails.
pub(crate) fn released_is(rt: &impl Abort, released: Released, wanted: Released)
    ensures { released ≡ wanted }
{
    assert_eq!(rt; released, wanted);
}

/// The parking ended so, or the test fails.
pub(crate) fn parked_is(rt: &impl Abort, parked: Parked, wanted: Parked)
    ensures { parked ≡ wanted }
{
    assert_eq!(rt; parked, wanted);
}

/// By the ledger, so many sleepers of each condition were taken, and as many of its waits have ended, or the test
/// fails.
pub(crate) fn ledger_is(rt: &impl Abort, ledger: &Ledger, wanted: &[u64]) {
    equal(rt, ledger.called.as_slice(), wanted);
    equal(rt, ledger.woken.as_slice(), wanted);
}
