ghost use Rattle.std.specs.Prelude.{◌≡◌, ℕ, ◌+◌, ◌-◌, ◌*◌, ◌^◌, ◌<◌, true, false, List, [], Option};
ghost use Rattle.std.specs.Prelude.{length, IfOk, IsSome, MatchOption};
ghost use Rattle.std.specs.List.{zip};
ghost use Rattle.lot_places.specs.Places.{empty_places, spaced, has_key, root_at, with_root, keys_of, LieFirst};
ghost use Rattle.lot_places.specs.Places.{IsPlaceOf};

use crate::keys::Keys;
use std::alloc::{AllocError, Global};
use std::marker::Model;
use std::mem;

/// The keys of a bucket, each with a place for its root.
///
/// A table gives a bucket keys that are evenly spaced: no list of them is made, and a key's place is found by one
/// division. Other keys are listed and looked through.
///
/// They are not `Drop`, as roots may lie in them: `discard` spends places without roots.
pub struct Places<R> {
    keys: Keys,
    // At the place of each key, its root where that is in.
    slots: Vec<Option<R>>,
}

impl<R> Model for Places<R> {
    ghost Value = { List (ℕ × Option R) };

    ghost view = { λ p. zip (keys_of p.keys) p.slots.items };

    ghost invariant = { λ p. (length p.slots.items ≡ length (keys_of p.keys))
        × LieFirst (zip (keys_of p.keys) p.slots.items) };
}

impl<R> Places<R> {
    /// A place for each of these keys, with no root in it. No later call takes memory.
    pub fn new(alloc: Global, keys: &[usize]) -> Result<Places<R>, AllocError>
        ensures { IfOk result (λ p. p ≡ empty_places keys.now) }
    {
        Places::empty(alloc, Keys::new(alloc, keys)?)
    }

    /// Places for `count` keys: `first`, and then each is the one before and `step`. It makes no list of them;
    /// no later call takes memory.
    pub fn spaced(
        alloc: Global,
        first: usize,
        step: usize,
        count: usize,
    ) -> Result<Places<R>, AllocError>
        requires { first + (count - 1) * step < 2 ^ 64 }
        ensures { IfOk result (λ p. p ≡ empty_places (spaced first step count)) }
    {
        Places::empty(alloc, Keys::Spaced { first, step, count })
    }

    fn empty(alloc: Global, keys: Keys) -> Result<Places<R>, AllocError>
        ensures { IfOk result (λ p. p ≡ empty_places (keys_of keys)) }
    {
        let count = keys.len();
        let mut slots = Vec::with_capacity(alloc, count)?;
        for _place in 0..count {
            slots.push_reserved(None);
        }
        Ok(Places { keys, slots })
    }

    /// Places for no keys. It takes no memory.
    pub fn hollow(alloc: Global) -> Places<R>
        ensures { result ≡ [] }
    {
        Places {
            keys: Keys::Spaced {
                first: 0,
                step: 0,
                count: 0,
            },
            slots: Vec::new(alloc),
        }
    }

    /// Whether there is a place for the key.
    pub fn has(&self, key: usize) -> bool
        ensures { result ≡ has_key key self.now }
    {
        self.place_of(key).is_some()
    }

    /// Takes the key's root out of its place.
    pub fn take(&mut self, key: usize) -> R
        requires { IsSome (root_at key self.old) }
        ensures root { root_at key self.old ≡ Some result }
        ensures left { self.new ≡ with_root key None self.old }
    {
        let Some(place) = self.place_of(key) else {
            unreachable!();
        };
        let slot = &mut self.slots[place];
        slot.take().unwrap()
    }

    /// Puts the key's root into its place, which is empty.
    pub fn put(&mut self, key: usize, root: R)
        requires has { has_key key self.old ≡ true }
        requires free { root_at key self.old ≡ None }
        ensures { self.new ≡ with_root key (Some root) self.old }
    {
        let Some(place) = self.place_of(key) else {
            unreachable!();
        };
        let slot = &mut self.slots[place];
        let before = mem::replace(slot, Some(root));
        let None = before else {
            unreachable!();
        };
    }

    /// Spends places in which no root lies.
    pub fn discard(self)
        requires { (k : ℕ) → root_at k self ≡ None }
    {
        let Places { keys: _, mut slots } = self;
        while let Some(root) = slots.pop() {
            let None = root else {
                unreachable!();
            };
        }
        slots.destroy_empty();
    }

    fn place_of(&self, key: usize) -> Option<usize>
        ensures { MatchOption result (has_key key self.now ≡ false) (IsPlaceOf key self.now) }
    {
        self.keys.place_of(key)
    }
}
