//! Closing: all rights come back.
ghost use Rattle.std.specs.Prelude.{◌≡◌, ℕ, ◌<◌};
ghost use Rattle.std.specs.List.{All, Any};
ghost use Rattle.lot_core.specs.Parts.{IsAmongConds};
ghost use Rattle.lot_rights.specs.Shown.{PassShown, RootShown};
ghost use Rattle.lot_conds.specs.declared.views.CondPassView.{CondPassView};
ghost use Rattle.lot_conds.specs.declared.views.CondRootView.{CondRootView};
ghost use Rattle.lot_conds.specs.Closing.{IsIdle, called_in, woken_in, IsToldTo};

use crate::kind::{CondPass, CondRoot};
use crate::words::CondWords;

impl CondWords {
    /// Ends the table. All rights come with it, and no pass is out on a condition, so no letter lies. What it proves:
    /// in each condition, the sleepers that were taken are as many as the waits that found their letter.
    pub fn close(self, passes: Vec<CondPass>, roots: Vec<CondRoot>)
        requires table { All (λ (p : PassShown CondPassView). p.table ≡ self.table) passes.items
            × All (λ (q : RootShown CondRootView). q.table ≡ self.table) roots.items }
        requires idle { All IsIdle passes.items }
        requires passes { (t : ℕ) → t < self.size.threads
            → Any (λ (p : PassShown CondPassView). p.thread ≡ t) passes.items }
        requires roots { (c : ℕ) → IsAmongConds self.size.locks self.size.conds c
            → Any (λ (q : RootShown CondRootView). q.key ≡ c) roots.items }
        ensures balanced { (c : ℕ) → called_in passes.items c ≡ woken_in passes.items c }
        ensures history { IsToldTo self.size passes.items roots.items }
    {
        let CondWords { words } = self;
        words.close(passes, roots).free();
    }
}
