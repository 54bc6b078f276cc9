ghost use Rattle.std.specs.Prelude.{◌≡◌, ◌+◌, ◌*◌, ◌<◌, ◌≤◌};
ghost use Rattle.lot_table.specs.Sizes.{grown_size_of, first_size_of};
ghost use Rattle.lot_table.specs.declared.sizes.TheConstants.{MOST_THREADS, FIRST_SIZE, FEW_KEYS};

use lot_bucket::BucketFault;
use std::alloc::AllocError;
use thiserror::Error;

/// How many threads a table can be made for: a limit of its own, since a table knows no model that could lend it one.
/// `lot_scheme`, which knows both, checks that it is the model's.
pub const MOST_THREADS: usize = 256;

/// How many buckets a table has at first, where its keys are few.
pub const FIRST_SIZE: usize = 3;

/// A table of more keys than this never grows, since a growth moves the root of each key. `lot_scheme` checks that it
/// is the limit of the model's keys.
pub const FEW_KEYS: usize = 1024;

/// How many versions a table can have. For the most threads, that come one by one, the sizes are 3, 12, 30,
/// 66, 138, 282, 570 and 1146.
pub const MOST_VERSIONS: usize = 8;

// A table that has fewer buckets for each thread grows to twice as many.
const BUCKETS_PER_THREAD: usize = 3;

/// Why a table could not be made or could not grow.
#[derive(Clone, Copy, Debug, PartialEq, Eq, Error)]
pub enum TableFault {
    /// A request for memory was refused.
    #[error("no memory")]
    NoMemory = 1,
}

impl From<AllocError> for TableFault {
    fn from(_error: AllocError) -> TableFault {
        TableFault::NoMemory
    }
}

impl From<BucketFault> for TableFault {
    fn from(_error: BucketFault) -> TableFault {
        TableFault::NoMemory
    }
}

/// What became of a table that was to serve so many threads; sizes are numbers of buckets.
#[derive(Clone, Copy, Debug, PartialEq, Eq)]
pub enum Grown {
    /// It is large enough, and has this size.
    Kept(usize),
    /// It grew from the first size to the second.
    Grew(usize, usize),
}

/// The size that a table of `size` buckets has to have for so many threads, as the growth of the hash table
/// of WTF's ParkingLot: it stays while there are three buckets for each thread, and else becomes twice that.
pub fn grown_size(size: usize, threads: usize) -> usize
    requires { threads ≤ MOST_THREADS }
    ensures { result ≡ grown_size_of size threads }
{
    if size >= BUCKETS_PER_THREAD * threads {
        size
    } else {
        2 * BUCKETS_PER_THREAD * threads
    }
}

/// How many buckets a table starts with for so many threads and keys. With more than [`FEW_KEYS`] keys it is as many as
/// its threads will ever ask for, so that table never grows.
pub fn first_size(threads: usize, keys: usize) -> usize
    requires { threads ≤ MOST_THREADS }
    ensures size { result ≡ first_size_of threads keys }
    ensures some { 0 < result }
    ensures few { result ≤ FIRST_SIZE + 6 * MOST_THREADS }
    ensures whole { FEW_KEYS < keys → 3 * threads ≤ result }
{
    if keys <= FEW_KEYS {
        FIRST_SIZE
    } else {
        grown_size(FIRST_SIZE, threads)
    }
}
