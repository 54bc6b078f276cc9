//! The new buckets of a table, and their keys.

ghost use Rattle.std.specs.Prelude.{◌≡◌, ℕ, ◌<◌, ◌≤◌, IfOk, slice_index_or, vec_len, vec_capacity};
ghost use Rattle.lot_bucket.specs.Agrees.{IsSpent};
ghost use Rattle.lot_table.specs.Buckets.{AreFresh};

use crate::denied::{Denied, fresh_bucket, room_for};
use lot_bucket::{Bucket, Root};
use std::alloc::Global;

/// The closed, empty buckets of a table of so many buckets, with room for so many threads in each. The list of
/// them has room for `most`.
pub fn fresh_buckets<R: Root>(
    alloc: Global,
    most: usize,
    size: usize,
    keys: usize,
    threads: usize,
) -> Result<Vec<Bucket<R>>, Denied>
    requires { size ≤ most }
    ensures len { IfOk result (λ v. vec_len v ≡ size) }
    ensures fresh { IfOk result (λ v. AreFresh keys threads v.items) }
    ensures room { IfOk result (λ v. most ≤ vec_capacity v) }
{
    let mut buckets = room_for(alloc, most)?;
    for number in 0..size {
        match fresh_bucket(alloc, number, size, keys, threads) {
            Ok(bucket) => buckets.push_reserved(bucket),
            Err(denied) => {
                discard_all(buckets);
                return Err(denied);
            }
        }
    }
    Ok(buckets)
}

/// Spends new buckets that are not used.
pub fn discard_all<R: Root>(buckets: Vec<Bucket<R>>)
    requires { (i : ℕ) (b : _) → i < vec_len buckets → IsSpent (slice_index_or buckets.items i b) }
{
    let mut buckets = buckets;
    while let Some(bucket) = buckets.pop() {
        bucket.discard();
    }
    buckets.destroy_empty();
}
