//! What a table of lock words is told once, when it is made.
ghost use Rattle.std.specs.Prelude.{◌≡◌, vec_len};

use crate::views::Size;
use std::snapshot::Snapshot;

/// How large the table is, and which values lie in its slots at the opening. The values are for contracts alone.
#[derive(Drop)]
pub struct Start<V> {
    pub size: Size,
    pub values: Snapshot<Vec<V>>,
}

impl<V> Start<V> {
    /// For so many threads, and a lock for each value.
    pub(crate) fn new(threads: usize, values: &Vec<V>) -> Start<V>
        ensures size { (result.size.threads ≡ threads) × (result.size.locks ≡ vec_len values.now) }
        ensures values { result.values.value ≡ values.now }
    {
        let size = Size {
            threads: threads as u64,
            locks: values.len() as u64,
        };
        let values = Snapshot::of(values);
        Start { size, values }
    }
}
