//! The clock.
use lot_sync::Moment;
use std::time::Clock;

const SECOND: u64 = 1_000_000_000;

/// Nanoseconds since some start; 0 where the clock can't be read.
#[inline(always)]
pub fn now<T: Clock>(rt: &T) -> u64 {
    match rt.monotonic() {
        Ok(time) => time
            .as_secs()
            .wrapping_mul(SECOND)
            .wrapping_add(time.subsec_nanos() as u64),
        Err(_) => 0,
    }
}

/// The moment of a release, with a random word.
pub fn moment<T: Clock>(rt: &T, word: u64) -> Moment {
    Moment { now: now(rt), word }
}

/// Lets so many nanoseconds go by without a pause.
pub fn spend<T: Clock>(rt: &T, nanos: u64) {
    let begin = now(rt);
    for _ in 0..nanos {
        if now(rt).wrapping_sub(begin) >= nanos {
            return;
        }
    }
}
