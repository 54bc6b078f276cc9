//! What a table of semaphore words is told once, when it is made.
ghost use Rattle.std.specs.Prelude.{◌≡◌};

use std::snapshot::Snapshot;

/// How many threads there are, the number of the first semaphore, and how many permits each has at the opening. The
/// permits are for contracts alone.
#[derive(Drop)]
pub struct Start {
    pub threads: u64,
    pub first_sem: u64,
    pub permits: Snapshot<Vec<u32>>,
}

impl Start {
    pub(crate) fn new(threads: usize, first_sem: usize, permits: &Vec<u32>) -> Start
        ensures size { (result.threads ≡ threads) × (result.first_sem ≡ first_sem) }
        ensures permits { result.permits.value ≡ permits.now }
    {
        Start {
            threads: threads as u64,
            first_sem: first_sem as u64,
            permits: Snapshot::of(permits),
        }
    }
}
