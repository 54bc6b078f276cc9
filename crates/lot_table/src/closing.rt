//! The end of a table: each key's root comes out of its bucket.

ghost use Rattle.std.specs.Prelude.{◌≡◌, ◌+◌, ◌<◌, ◌≤◌, [], IsSome, Some, None, length, vec_len, vec_capacity};
ghost use Rattle.lot_bucket.specs.Queue.{without_key};
ghost use Rattle.lot_bucket.specs.Places.{root_at, with_root};
ghost use Rattle.lot_table.specs.Buckets.{AreWhole, AreEmpty};
ghost use Rattle.lot_table.specs.Roots.{Appends};

use crate::moves::empty_line;
use crate::version::Version;
use lot_bucket::{Bucket, Root};
use std::sync::Wait;

/// Room for the buckets of any version, for the close.
pub struct Closing<R: Root> {
    row: Vec<Bucket<R>>,
    ghost none: { row.items ≡ [] },
}

impl<R: Root> Closing<R> {
    pub fn new(row: Vec<Bucket<R>>) -> Closing<R>
        requires { row.items ≡ [] }
    {
        Closing { row }
    }

    /// Appends each key's root to `out`, in key order, and spends the buckets. It takes no memory.
    pub fn close<W: Wait>(self, rt: &W, newest: Version<R>, keys: usize, out: &mut Vec<R>)
        requires { vec_len out.old + keys ≤ vec_capacity out.old }
        ensures { Appends R.view keys out.old.items out.new.items }
    {
        let Closing { row } = self;
        let mut buckets = newest.into_buckets(rt, keys, row);
        hand_out(buckets.as_mut_slice(), keys, out);
        spend_empty(buckets);
    }
}

fn hand_out<R: Root>(buckets: &mut [Bucket<R>], keys: usize, out: &mut Vec<R>)
    requires some { 0 < length buckets.old }
    requires whole { AreWhole R.view keys buckets.old }
    requires room { vec_len out.old + keys ≤ vec_capacity out.old }
    ensures roots { Appends R.view keys out.old.items out.new.items }
    ensures left { AreEmpty R.view buckets.new }
{
    let size = buckets.len();
    for key in 0..keys {
        out.push_reserved(root_out(&mut buckets[key % size], key));
    }
}

// Takes the key's root out, and its line, which the root knows.
fn root_out<R: Root>(bucket: &mut Bucket<R>, key: usize) -> R
    requires { IsSome (root_at key bucket.old.places) }
    ensures root { root_at key bucket.old.places ≡ Some result }
    ensures left { bucket.new ≡ record bucket.old {
      places = with_root key None bucket.old.places;
      queue = without_key key bucket.old.queue;
    } }
{
    let root = bucket.take_root(key);
    empty_line(bucket, key);
    root
}

/// Closes and spends buckets in which nothing is left.
pub fn spend_empty<R: Root>(buckets: Vec<Bucket<R>>)
    requires { AreEmpty R.view buckets.items }
{
    let mut buckets = buckets;
    while let Some(mut bucket) = buckets.pop() {
        bucket.close();
        bucket.discard();
    }
    buckets.destroy_empty();
}
