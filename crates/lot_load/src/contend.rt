//! What `contend` tells besides `many`: which locks its threads waited for.
ghost use Rattle.std.specs.Prelude.{◌≡◌, ◌<◌, map, IfOk};
ghost use Rattle.lot_load.specs.Hottest.{TakesHottest, IsHottestOf};

use lot_command::Failure;
use lot_sync::Contention;
use std::alloc::{AllocError, Global};
use std::fmt::Write as _;

/// How many locks are told of at most.
const MOST_TOLD: usize = 8;

/// A line for each of the hottest locks, from the hottest on.
pub(crate) fn print_hottest(
    alloc: Global,
    text: &mut String,
    counts: &[Contention],
) -> Result<(), Failure> {
    let mut left = parked_of(alloc, counts)?;
    for _ in 0..MOST_TOLD {
        let Some(lock) = take_hottest(left.as_mut_slice()) else {
            return Ok(());
        };
        let Contention {
            parked,
            taken,
            handed,
            again,
            longest,
        } = counts[lock];
        writeln!(
            text,
            "lock {lock} parked {parked} taken {taken} handed {handed} again {again} longest {longest}"
        )?;
    }
    Ok(())
}

/// How many threads parked on each.
fn parked_of(alloc: Global, counts: &[Contention]) -> Result<Vec<u64>, AllocError>
    ensures { IfOk result (λ parked. parked.items ≡ map (λ (c : Contention). c.parked) counts.now) }
{
    counts.iter().map(|count| count.parked).collect(alloc)
}

/// Takes the hottest of the locks that are left: it is left no more, as are those on which nobody parked. None where
/// none is left.
fn take_hottest(left: &mut [u64]) -> Option<usize>
    ensures { TakesHottest left.old result left.new }
{
    let lock = hottest(left)?;
    left[lock] = 0;
    Some(lock)
}

/// The lock on which most threads parked, of several the one of the lowest number; none where nobody parked.
fn hottest(parked: &[u64]) -> Option<usize>
    ensures { IsHottestOf parked.now result }
{
    let mut most = 0;
    let mut place = 0;
    for (lock, count) in parked.iter().enumerate() {
        if *count > most {
            most = *count;
            place = lock;
        }
    }
    if most == 0 { None } else { Some(place) }
}
