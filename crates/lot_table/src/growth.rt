//! Growth: the one thing that takes memory for a table that is in use.

ghost use Rattle.std.specs.Prelude.{◌≡◌, ℕ, ◌<◌, ◌≤◌, true, false, [], length, IsTrue, IfOk, IfErr, MatchOption};
ghost use Rattle.std.specs.Prelude.{vec_len, vec_capacity};
ghost use Rattle.lot_table.specs.Buckets.{queued, AreFresh, AreWhole, KeepsLines, AreFilled, IsMove, AreElseAs};
ghost use Rattle.lot_table.specs.Tables.{under};

use crate::cells::{Found, Growing, Unset, publish};
use crate::closing::spend_empty;
use crate::denied::{Denied, room_for};
use crate::fresh::{discard_all, fresh_buckets};
use crate::moves::move_rows;
use crate::version::{Filled, Version};
use lot_bucket::{Bucket, Root, Settled};
use std::alloc::Global;
use std::sync::{MutexGuard, Wait};

/// The allocator of a table, in the hands of growth alone.
///
/// The field is private, and so are the rows of a table, which know their allocators: so no other call of a table
/// that is in use can ask for memory.
#[derive(Drop)]
pub struct Grower {
    alloc: Global,
}

impl Grower {
    pub fn new(alloc: Global) -> Grower {
        Grower { alloc }
    }

    /// Takes all memory that a growth to `size` buckets needs, and then lets the table grow from `version` to a
    /// new one, which is published in the cell `next`, and answers that one.
    ///
    /// Where a bucket of `version` is not in use, where more than `threads` wait, or where the cell is set, it
    /// lets all locks go, publishes none, and nothing has changed.
    pub fn grow<'a, W: Wait, R: Root, G>(
        &self,
        rt: &W,
        version: &Version<R>,
        next: &Unset<'a, R>,
        size: usize,
        keys: usize,
        threads: usize,
        growing: &mut Growing<G>,
    ) -> Result<Option<(Found<'a, R>, Filled<R>)>, Denied>
        requires size { 0 < size }
        requires first { growing.old.has_grown ≡ false }
        ensures published { IfOk result (λ r. MatchOption r (growing.new.has_grown ≡ false)
            (λ f. (growing.new.has_grown ≡ true) × (f.0.token.of ≡ next.now.id) × (f.0.version.now.size ≡ size)
            × IsMove version.now.size size f.1)) }
        ensures refused { IfErr result (λ e. growing.new.has_grown ≡ false) }
    {
        let supplies = supplies_for(rt, self.alloc, version.size(), size, keys, threads)?;
        Ok(grow_with(
            rt, self.alloc, version, next, supplies, keys, threads, growing,
        ))
    }
}

// What a grower works with: room for the locks and for the buckets that it takes out from under them, the new
// buckets, and the new version, which they are to fill.
struct Supplies<'a, R: Root> {
    guards: Vec<MutexGuard<'a, Settled<R>>>,
    old: Vec<Bucket<R>>,
    fresh: Vec<Bucket<R>>,
    grown: Version<R>,
}

fn supplies_for<'a, W: Wait, R: Root>(
    rt: &W,
    alloc: Global,
    left: usize,
    size: usize,
    keys: usize,
    threads: usize,
) -> Result<Supplies<'a, R>, Denied>
    requires { 0 < size }
    ensures guards { IfOk result (λ s. (vec_len s.guards ≡ 0) × (left ≤ vec_capacity s.guards)) }
    ensures old { IfOk result (λ s. (s.old.items ≡ []) × (left ≤ vec_capacity s.old)) }
    ensures fresh { IfOk result (λ s. AreFresh keys threads s.fresh.items) }
    ensures sizes { IfOk result (λ s. vec_len s.fresh ≡ s.grown.size) }
    ensures grown { IfOk result (λ s. s.grown.size ≡ size) }
{
    let guards = room_for(alloc, left)?;
    let grown = Version::hollow(alloc, size)?;
    let fresh = match fresh_buckets(alloc, size, size, keys, threads) {
        Ok(fresh) => fresh,
        Err(denied) => {
            grown.discard(rt);
            return Err(denied);
        }
    };
    match room_for(alloc, left) {
        Ok(old) => Ok(Supplies {
            guards,
            old,
            fresh,
            grown,
        }),
        Err(denied) => {
            discard_all(fresh);
            grown.discard(rt);
            Err(denied)
        }
    }
}

// Lets all locks go, and spends what was not used.
fn abandon<W: Wait, R: Root>(
    rt: &W,
    guards: Vec<MutexGuard<'_, Settled<R>>>,
    old: Vec<Bucket<R>>,
    fresh: Vec<Bucket<R>>,
    grown: Version<R>,
)
    requires old { old.items ≡ [] }
    requires fresh { (keys threads : ℕ) × AreFresh keys threads fresh.items }
{
    drop(guards);
    old.destroy_empty();
    discard_all(fresh);
    grown.discard(rt);
}

fn grow_with<'a, 'b, W: Wait, R: Root, G>(
    rt: &W,
    alloc: Global,
    version: &'b Version<R>,
    next: &Unset<'a, R>,
    supplies: Supplies<'b, R>,
    keys: usize,
    threads: usize,
    growing: &mut Growing<G>,
) -> Option<(Found<'a, R>, Filled<R>)>
    requires guards { (vec_len supplies.guards ≡ 0) × (version.now.size ≤ vec_capacity supplies.guards) }
    requires old { (supplies.old.items ≡ []) × (version.now.size ≤ vec_capacity supplies.old) }
    requires fresh { AreFresh keys threads supplies.fresh.items × (vec_len supplies.fresh ≡ supplies.grown.size) }
    requires first { growing.old.has_grown ≡ false }
    ensures { MatchOption result (growing.new.has_grown ≡ false) (λ f. (growing.new.has_grown ≡ true)
        × (f.0.token.of ≡ next.now.id) × (f.0.version.now.size ≡ supplies.entry.grown.size)
        × IsMove version.now.size supplies.entry.grown.size f.1) }
{
    let Supplies {
        mut guards,
        old,
        fresh,
        grown,
    } = supplies;
    lock_all(rt, version, &mut guards);
    if !are_whole(guards.as_slice(), keys, threads) {
        abandon(rt, guards, old, fresh, grown);
        return None;
    }
    match publish(next, grown, growing) {
        Ok(found) => {
            let filled = move_over(rt, alloc, guards, old, fresh, found.version, keys);
            Some((found, filled))
        }
        Err(back) => {
            abandon(rt, guards, old, fresh, back);
            None
        }
    }
}

fn lock_all<'a, W: Wait, R: Root>(
    rt: &W,
    version: &'a Version<R>,
    guards: &mut Vec<MutexGuard<'a, Settled<R>>>,
)
    requires empty { vec_len guards.old ≡ 0 }
    requires room { version.now.size ≤ vec_capacity guards.old }
    ensures len { vec_len guards.new ≡ version.now.size }
    ensures some { 0 < vec_len guards.new }
{
    for number in 0..version.size() {
        guards.push_reserved(version.lock_of(number).lock(rt));
    }
}

// Whether all these buckets are in use, and at most so many threads wait in them.
fn are_whole<R: Root>(guards: &[MutexGuard<'_, Settled<R>>], keys: usize, threads: usize) -> bool
    ensures whole { IsTrue result → AreWhole R.view keys (under guards.now) }
    ensures few { IsTrue result → queued (under guards.now) ≤ threads }
{
    let mut waiting = 0;
    for number in 0..guards.len() {
        if !guards[number].is_whole(number, guards.len(), keys) {
            return false;
        }
        let own = guards[number].bucket().len();
        if own > threads - waiting {
            return false;
        }
        waiting += own;
    }
    true
}

// Moves all lines and roots to the new buckets, which then fill the new version. The old buckets are locked
// until all is done, and closed, empty ones stay behind.
fn move_over<W: Wait, R: Root>(
    rt: &W,
    alloc: Global,
    guards: Vec<MutexGuard<'_, Settled<R>>>,
    old: Vec<Bucket<R>>,
    fresh: Vec<Bucket<R>>,
    published: &Version<R>,
    keys: usize,
) -> Filled<R>
    requires some { 0 < vec_len guards }
    requires whole { AreWhole R.view keys (under guards.items) }
    requires old { (old.items ≡ []) × (vec_len guards ≤ vec_capacity old) }
    requires fresh { (threads : ℕ) × AreFresh keys threads fresh.items × (queued (under guards.items) ≤ threads) }
    requires sizes { vec_len fresh ≡ published.now.size }
    ensures from { result.before ≡ under guards.entry.items }
    ensures count { length result.after ≡ published.now.size }
    ensures lines { KeepsLines (under guards.entry.items) result.after }
    ensures filled { AreFilled R.view keys result.after }
    ensures fresh { AreElseAs fresh.items result.after }
{
    let mut guards = guards;
    let mut old = old;
    let mut fresh = fresh;
    prove!(published.size() > 0);
    take_out(alloc, guards.as_mut_slice(), &mut old);
    let rows = move_rows(&mut old, &mut fresh);
    let filled = published.fill(rt, fresh, keys, rows);
    spend_empty(old);
    filled
}

// Takes the buckets out from under their locks, and leaves closed, empty ones.
fn take_out<R: Root>(
    alloc: Global,
    guards: &mut [MutexGuard<'_, Settled<R>>],
    old: &mut Vec<Bucket<R>>,
)
    requires empty { old.old.items ≡ [] }
    requires room { length guards.old ≤ vec_capacity old.old }
    ensures { old.new.items ≡ under guards.old }
{
    for number in 0..guards.len() {
        let settled = &mut *guards[number];
        old.push_reserved(settled.take_bucket(alloc));
    }
}
