//! How often a test asks, with a yield between two askings.
ghost use Rattle.std.specs.Prelude.{◌<◌};

use lot_park::{ParkingLot, Scheme};
use std::process::Abort;
use std::sync::Wait;
use std::sync::atomic::{AtomicU64, Ordering};
use std::thread;

/// For what is to come.
pub(crate) const ASKINGS: u64 = 10_000_000;

/// For what is not.
pub(crate) const QUIET_ASKINGS: u64 = 100_000;

/// Whether the word is found with this number in it.
pub(crate) fn is_within(word: &AtomicU64, number: u64, askings: u64) -> bool {
    for _ in 0..askings {
        if word.load(Ordering::SeqCst) == number {
            return true;
        }
        thread::yield_now();
    }
    false
}

/// Waits until so many are in the line of the key, or the test fails.
pub(crate) fn await_line<S: Scheme, T: Wait + Abort>(
    rt: &T,
    lot: &ParkingLot<S>,
    key: usize,
    length: usize,
)
    requires { key < lot.now.keys }
{
    for _ in 0..ASKINGS {
        if lot.line_length(rt, key) == length {
            return;
        }
        thread::yield_now();
    }
    panic!(rt; "{length} never are in the line of {key}")
}
