//! Closing: all rights come back, and so do the values.
ghost use Rattle.std.specs.Prelude.{◌≡◌, ℕ, ◌<◌, ◌≤◌, Some, slice_get, vec_len, vec_capacity};
ghost use Rattle.std.specs.List.{All, Any};
ghost use Rattle.std.specs.Slots.{slots_items, slots_len, IsFull};
ghost use mathlib.Core.Option.{some};
ghost use lib.ListN.{get_elem?};
ghost use Rattle.lot_rights.specs.Shown.{PassShown, RootShown};
ghost use Rattle.lot_words.specs.declared.views.LockPassView.{LockPassView};
ghost use Rattle.lot_words.specs.declared.views.LockRootView.{LockRootView};
ghost use Rattle.lot_words.specs.Values.{HasSeen, FoundOk};
ghost use Rattle.lot_words.specs.Closing.{HoldsNone, IsToldTo};

use crate::keeps::Keeps;
use crate::kind::{LockPass, LockRoot};
use crate::words::LockWords;
use atomic_table::Closed;
use std::alloc::Global;

/// Takes the value out of each slot, in order.
pub fn take_values<V: Drop>(mut closed: Closed<Option<V>, Global>, mut room: Vec<V>) -> Vec<V>
    requires full { IsFull closed.words × IsFull closed.slots }
    requires lie { (k : ℕ) → k < slots_len closed.slots
        → (y : V) × (get_elem? (slots_items closed.slots) k ≡ some (Some y)) }
    requires room { (vec_len room ≡ 0) × (slots_len closed.slots ≤ vec_capacity room) }
    ensures len { vec_len result ≡ slots_len closed.slots }
    ensures each { (k : ℕ) (y : V) → slice_get result.items k ≡ Some y
        → get_elem? (slots_items closed.slots) k ≡ some (Some y) }
{
    let mut i = 0;
    while i < closed.slot_count() {
        let Some(value) = closed.take(i) else {
            unreachable!()
        };
        room.push_reserved(value);
        i += 1;
    }
    closed.free();
    room
}

impl<V: Keeps> LockWords<V> {
    /// Ends the table and gives its values back, in the order of their locks. All rights come with it, and no pass
    /// holds a lock. Each value keeps the rule and has grown from what each pass had seen of it.
    pub fn close(self, passes: Vec<LockPass<V>>, roots: Vec<LockRoot<V>>) -> Vec<V>
        requires table { All (λ (p : PassShown (LockPassView V)). p.table ≡ self.table) passes.items
            × All (λ (q : RootShown LockRootView). q.table ≡ self.table) roots.items }
        requires idle { All HoldsNone passes.items }
        requires passes { (t : ℕ) → t < self.size.threads
            → Any (λ (p : PassShown (LockPassView V)). p.thread ≡ t) passes.items }
        requires roots { (l : ℕ) → l < self.size.locks
            → Any (λ (q : RootShown LockRootView). q.key ≡ l) roots.items }
        ensures len { vec_len result ≡ self.size.locks }
        ensures found { All (λ (p : PassShown (LockPassView V)). (l : ℕ) (y : V) → slice_get result.items l ≡ Some y
            → FoundOk V.Keeps l p.thread p.own y) passes.items }
        ensures left { (l : ℕ) (y : V) → slice_get result.items l ≡ Some y
            → Any (λ (p : PassShown (LockPassView V)). HasSeen p.own l y) passes.items }
        ensures history { IsToldTo self.size passes.items roots.items }
    {
        let LockWords { words, room } = self;
        take_values(words.close(passes, roots), room.into_inner())
    }
}
