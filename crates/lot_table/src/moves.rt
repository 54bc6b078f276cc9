//! The move of lines and roots to the buckets of a larger table.

ghost use Rattle.std.specs.Prelude.{◌≡◌, ℕ, ◌+◌, ◌<◌, ◌≤◌, true, ◌++◌, None, IsSome, length, map, vec_len};
ghost use Rattle.lot_bucket.specs.Queue.{line_of, without_key};
ghost use Rattle.lot_bucket.specs.Places.{has_key, root_at, with_root};
ghost use Rattle.lot_table.specs.Buckets.{KeepsLines, AreWhole, AreFilled, AreEmpty, MayRegrow, AreElseAs};

use lot_bucket::{Bucket, Moment, Root};
use std::marker::Model;
use std::snapshot::Snapshot;

// A moment at which it is not yet time to be fair, whatever the bucket.
const NEVER: Moment = Moment { now: 0, word: 0 };

/// That all lines and roots were moved. Only `regrow` gives one, and it takes no bytes.
#[derive(Drop)]
pub struct Moved(());

/// That all lines and roots were moved from one row of buckets to another: contracts see the one as it was before,
/// and the other as it was after. Only `move_rows` gives one, and it takes no bytes.
#[derive(Drop)]
pub struct MovedRows<R: Root> {
    moved: Moved,
    before: Snapshot<Vec<Bucket<R>>>,
    after: Snapshot<Vec<Bucket<R>>>,
}

impl<R: Root> Model for MovedRows<R> {
    ghost use Rattle.lot_table.specs.Buckets.{Rows};

    ghost Value = { Rows R };

    ghost view = { λ m. record { before = m.before.value.items; after = m.after.value.items } };
}

/// As `regrow`, of two whole rows, and tells which these were.
pub fn move_rows<R: Root>(old: &mut Vec<Bucket<R>>, new: &mut Vec<Bucket<R>>) -> MovedRows<R>
    requires { (keys : ℕ) × MayRegrow R.view keys old.old.items new.old.items }
    ensures before { result.before ≡ old.old.items }
    ensures after { result.after ≡ new.new.items }
    ensures len { vec_len new.new ≡ vec_len new.old }
    ensures lines { KeepsLines old.old.items new.new.items }
    ensures filled { (keys : ℕ) → AreWhole R.view keys old.old.items → AreFilled R.view keys new.new.items }
    ensures left { AreEmpty R.view old.new.items }
    ensures else_old { AreElseAs old.old.items old.new.items }
    ensures else_new { AreElseAs new.old.items new.new.items }
{
    let before = Snapshot::of(&*old);
    let moved = regrow(old.as_mut_slice(), new.as_mut_slice());
    MovedRows {
        moved,
        before,
        after: Snapshot::of(&*new),
    }
}

/// Moves each key's line and root from the buckets of a table to those of a larger one, as WTF's ParkingLot
/// does when it rehashes. Each line keeps its order.
///
/// The caller has the old buckets out from under their locks, and the new ones are not in use yet. It takes
/// no memory.
pub fn regrow<R: Root>(old: &mut [Bucket<R>], new: &mut [Bucket<R>]) -> Moved
    requires { (keys : ℕ) × MayRegrow R.view keys old.old new.old }
    ensures lines { KeepsLines old.old new.new }
    ensures filled { (keys : ℕ) → AreWhole R.view keys old.old → AreFilled R.view keys new.new }
    ensures left { AreEmpty R.view old.new }
    ensures else_old { AreElseAs old.old old.new }
    ensures else_new { AreElseAs new.old new.new }
{
    let size = old.len();
    let grown = new.len();
    for key in 0..usize::MAX {
        if !old[key % size].has_key(key) {
            return Moved(());
        }
        move_key(&mut old[key % size], &mut new[key % grown], key);
    }
    Moved(())
}

fn move_key<R: Root>(from: &mut Bucket<R>, to: &mut Bucket<R>, key: usize)
    requires root { IsSome (root_at key from.old.places) }
    requires has { has_key key to.old.places ≡ true }
    requires free { root_at key to.old.places ≡ None }
    requires room { length to.old.queue + length (line_of key from.old.queue) ≤ to.old.room }
    ensures left { from.new ≡ record from.old {
      places = with_root key None from.old.places;
      queue = without_key key from.old.queue;
    } }
    ensures come { to.new ≡ record to.old {
      places = with_root key (root_at key from.old.places) to.old.places;
      queue = to.old.queue ++ map (λ (t : ℕ). (t, key)) (line_of key from.old.queue);
    } }
{
    let root = from.take_root(key);
    to.put_root(key, root);
    move_line(from, to, key);
}

fn move_line<R: Root>(from: &mut Bucket<R>, to: &mut Bucket<R>, key: usize)
    requires { length to.old.queue + length (line_of key from.old.queue) ≤ to.old.room }
    ensures left { from.new ≡ record from.old { queue = without_key key from.old.queue } }
    ensures come { to.new
        ≡ record to.old { queue = to.old.queue ++ map (λ (t : ℕ). (t, key)) (line_of key from.old.queue) } }
{
    while let Some(thread) = from.dequeue_one(key, NEVER).thread {
        to.enqueue(thread, key);
    }
}

/// Takes all threads of the key's line.
pub fn empty_line<R: Root>(bucket: &mut Bucket<R>, key: usize)
    ensures { bucket.new ≡ record bucket.old { queue = without_key key bucket.old.queue } }
{
    while let Some(_thread) = bucket.dequeue_one(key, NEVER).thread {}
}
