//! Roots for tests, which keep their line and their debts in lists.
ghost use Rattle.std.specs.Prelude.{◌≡◌, ◌+◌, [], ◌∷◌, ◌++◌, Option, take, drop, vec_len, IfOk};
ghost use Rattle.lot_bucket.specs.Queue.{first_of};
ghost use Rattle.lot_park.specs.Lots.{AreIdle};
ghost use Rattle.lot_park.specs.Parking.{debt, debts};

use lot_park::{Moment, Root};
use std::alloc::{AllocError, Global};
use std::process::Abort;

// A moment at which it is not yet time to be fair.
pub(crate) const EARLY: Moment = Moment { now: 0, word: 0 };

// A root that keeps its line and its debts in lists.
#[derive(Drop)]
pub(crate) struct Right {
    pub(crate) key: usize,
    pub(crate) line: Vec<usize>,
    pub(crate) owes: Vec<(usize, u32)>,
}

impl Root for Right {
    ghost view = { λ r. record { key = r.key; line = r.line.items; owes = r.owes.items } };
}

pub(crate) fn idle_right(alloc: Global, key: usize) -> Right
    ensures key { result.key ≡ key }
    ensures line { result.line.items ≡ [] }
    ensures owes { result.owes.items ≡ [] }
{
    Right {
        key,
        line: Vec::new(alloc),
        owes: Vec::new(alloc),
    }
}

// Right `i` is that of key `i`.
pub(crate) fn idle_rights(alloc: Global, keys: usize) -> Result<Vec<Right>, AllocError>
    ensures len { IfOk result (λ v. vec_len v ≡ keys) }
    ensures idle { IfOk result (λ v. AreIdle ⟦<Right as Root>⟧.view v.items) }
{
    let mut rights = Vec::new(alloc);
    for key in 0..keys {
        rights.push(idle_right(alloc, key))?;
    }
    Ok(rights)
}

// The right with the thread last in its line.
pub(crate) fn joined(rt: &impl Abort, right: Right, thread: usize) -> Right
    ensures key { result.key ≡ right.key }
    ensures line { result.line.items ≡ right.line.items ++ thread ∷ [] }
    ensures owes { result.owes.items ≡ right.owes.items }
{
    let mut right = right;
    right.line.push(thread).expect(rt, "memory");
    right
}

// The right without the first of its line, owing it the token.
pub(crate) fn passed(rt: &impl Abort, right: Right, taken: Option<usize>, token: u32) -> Right
    requires clear { right.owes.items ≡ [] }
    requires first { taken ≡ first_of right.line.items }
    ensures key { result.key ≡ right.key }
    ensures line { result.line.items ≡ drop 1 right.line.items }
    ensures owes { result.owes.items ≡ debt taken token }
{
    let mut right = right;
    if let Some(thread) = taken {
        right.line.remove(0);
        right.owes.push((thread, token)).expect(rt, "memory");
    }
    right
}

// The right without the first so many of its line, or without all where they are fewer, owing token 0 to each of these.
pub(crate) fn passed_first(rt: &impl Abort, right: Right, count: usize) -> Right
    requires { right.owes.items ≡ [] }
    ensures key { result.key ≡ right.key }
    ensures line { result.line.items ≡ drop count right.line.items }
    ensures owes { result.owes.items ≡ debts (take count right.line.items) }
{
    let mut right = right;
    let taken = count.min(right.line.len());
    for _ in 0..taken {
        let thread = right.line.remove(0);
        right.owes.push((thread, 0)).expect(rt, "memory");
    }
    right
}

// The right with nobody in its line, owing token 0 to each that was there.
pub(crate) fn passed_all(rt: &impl Abort, right: Right) -> Right
    requires { right.owes.items ≡ [] }
    ensures key { result.key ≡ right.key }
    ensures line { result.line.items ≡ [] }
    ensures owes { result.owes.items ≡ debts right.line.items }
{
    let all = right.line.len();
    passed_first(rt, right, all)
}
