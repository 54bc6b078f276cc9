//! Closing: all rights come back.
ghost use Rattle.std.specs.Prelude.{◌≡◌, ℕ, ◌<◌};
ghost use Rattle.std.specs.List.{All, Any};
ghost use Rattle.lot_rights.specs.Shown.{PassShown, RootShown};
ghost use Rattle.lot_sems.specs.declared.views.SemPassView.{SemPassView};
ghost use Rattle.lot_sems.specs.declared.views.SemRootView.{SemRootView};
ghost use Rattle.lot_sems.specs.World.{IsAmong};
ghost use Rattle.lot_sems.specs.Closing.{IsToldTo};

use crate::kind::{SemPass, SemRoot};
use crate::words::SemWords;

impl SemWords {
    /// Ends the table. All rights come with it. What it proves: of each semaphore, the permits that are left and those
    /// that are out with these passes are together as many as at the opening.
    pub fn close(self, passes: Vec<SemPass>, roots: Vec<SemRoot>)
        requires table { All (λ (p : PassShown SemPassView). p.table ≡ self.table) passes.items
            × All (λ (q : RootShown SemRootView). q.table ≡ self.table) roots.items }
        requires passes { (t : ℕ) → t < self.size.threads
            → Any (λ (p : PassShown SemPassView). p.thread ≡ t) passes.items }
        requires roots { (k : ℕ) → IsAmong self.size k
            → Any (λ (q : RootShown SemRootView). q.key ≡ k) roots.items }
        ensures history { IsToldTo self.size passes.items roots.items }
    {
        let SemWords { words } = self;
        words.close(passes, roots).free();
    }
}
