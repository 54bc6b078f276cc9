//! Closing: all rights come back, and so do the values.
ghost use Rattle.std.specs.Prelude.{◌≡◌, ℕ, ◌<◌, Some, slice_get, vec_len};
ghost use Rattle.std.specs.List.{All, Any};
ghost use Rattle.lot_rights.specs.Shown.{PassShown, RootShown};
ghost use Rattle.lot_words.specs.Values.{HasSeen, FoundOk};
ghost use Rattle.lot_whole.specs.declared.views.LotPassView.{LotPassView};
ghost use Rattle.lot_whole.specs.declared.views.LotRootView.{LotRootView};
ghost use Rattle.lot_whole.specs.Family.{key_count};
ghost use Rattle.lot_whole.specs.Closing.{HasDone, called_in, woken_in, IsToldTo};

use crate::kind::{LotLyingRoot, LotPass};
use crate::words::LotWords;
use lot_words::Keeps;
use lot_words::closing::take_values;

impl<V: Keeps> LotWords<V> {
    /// Ends the table and gives its values back, in the order of their locks. All rights come with it, no pass holds
    /// a lock, and none waits on a condition. Each value keeps the rule and has grown from what each pass had seen of
    /// it; in each condition, the sleepers that were taken are as many as the waits that found their letter; and one
    /// run of the whole model, from the opening to a sound state, was made with these rights.
    pub fn close(self, passes: Vec<LotPass<V>>, roots: Vec<LotLyingRoot<V>>) -> Vec<V>
        requires table { All (λ (p : PassShown (LotPassView V)). p.table ≡ self.table) passes.items
            × All (λ (q : RootShown LotRootView). q.table ≡ self.table) roots.items }
        requires done { All HasDone passes.items }
        requires passes { (t : ℕ) → t < self.size.threads
            → Any (λ (p : PassShown (LotPassView V)). p.thread ≡ t) passes.items }
        requires roots { (c : ℕ) → c < key_count self.size
            → Any (λ (q : RootShown LotRootView). q.key ≡ c) roots.items }
        ensures len { vec_len result ≡ self.size.locks }
        ensures found { All (λ (p : PassShown (LotPassView V)). (l : ℕ) (y : V) → slice_get result.items l ≡ Some y
            → FoundOk V.Keeps l p.thread p.own.locks y) passes.items }
        ensures left { (l : ℕ) (y : V) → slice_get result.items l ≡ Some y
            → Any (λ (p : PassShown (LotPassView V)). HasSeen p.own.locks l y) passes.items }
        ensures balanced { (c : ℕ) → called_in passes.items c ≡ woken_in passes.items c }
        ensures history { IsToldTo self.size passes.items roots.items }
    {
        let LotWords { words, room } = self;
        take_values(words.close(passes, roots), room.into_inner())
    }
}
