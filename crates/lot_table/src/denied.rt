//! Requests for memory, and that one was refused.

ghost use Rattle.std.specs.Prelude.{◌≡◌, ◌<◌, ◌≤◌, [], IfOk, vec_len, vec_capacity};
ghost use Rattle.lot_table.specs.Buckets.{IsFresh};

use crate::sizes::TableFault;
use lot_bucket::{Bucket, Root};
use std::alloc::Global;

/// That a request for memory was refused. Only the calls of this file give one, where theirs was.
#[derive(Drop)]
pub struct Denied(());

impl From<Denied> for TableFault {
    fn from(_denied: Denied) -> TableFault {
        TableFault::NoMemory
    }
}

/// An empty list with room for so many.
pub fn room_for<T>(alloc: Global, count: usize) -> Result<Vec<T>, Denied>
    ensures len { IfOk result (λ v. vec_len v ≡ 0) }
    ensures items { IfOk result (λ v. v.items ≡ []) }
    ensures capacity { IfOk result (λ v. count ≤ vec_capacity v) }
{
    match Vec::with_capacity(alloc, count) {
        Ok(list) => Ok(list),
        Err(_) => Err(Denied(())),
    }
}

/// A closed, empty bucket of a table. Its keys are those below `keys` that leave `number` when they are divided by
/// `size`.
pub fn fresh_bucket<R: Root>(
    alloc: Global,
    number: usize,
    size: usize,
    keys: usize,
    threads: usize,
) -> Result<Bucket<R>, Denied>
    requires { number < size }
    ensures { IfOk result (λ b. IsFresh size number keys threads b) }
{
    let count = keys.saturating_sub(number).div_ceil(size);
    match Bucket::spaced(alloc, threads, number, size, count) {
        Ok(bucket) => Ok(bucket),
        Err(_) => Err(Denied(())),
    }
}
