//! Opening: the table, a pass for each thread and a root for each condition.
ghost use Rattle.std.specs.Prelude.{◌≡◌, ℕ, ◌+◌, ◌<◌, ◌≤◌, [], Some, slice_get, replicate, vec_len, IfOk};
ghost use Rattle.lot_core.specs.declared.state.TheConstants.{MAX_THREADS};
ghost use Rattle.lot_rights.specs.declared.layout.TheConstants.{MOST_KEYS};
ghost use Rattle.lot_rights.specs.Layout.{word_count};
ghost use Rattle.lot_rights.specs.Start.{pass_at, root_at, Begins};
ghost use Rattle.lot_conds.specs.Rule.{key_count, meaning};

use crate::kind::{CondPass, CondRoot};
use crate::views::Size;
use crate::words::CondWords;
use lot_rights::{WordsFault, WordsOf};
use std::alloc::Global;

impl CondWords {
    /// Opens a table for so many threads and conditions, whose numbers follow those of the locks. The answer has a pass
    /// for each thread and a root for each condition, in order. There may be no condition.
    pub fn open(
        alloc: Global,
        threads: usize,
        locks: usize,
        conds: usize,
    ) -> Result<(CondWords, Vec<CondPass>, Vec<CondRoot>), WordsFault>
        requires limits { (0 < threads) × (threads ≤ MAX_THREADS) × (0 < locks) × (locks + conds ≤ MOST_KEYS) }
        ensures size { IfOk result (λ r. (r.0.size.threads ≡ threads) × (r.0.size.locks ≡ locks)
            × (r.0.size.conds ≡ conds)) }
        ensures passes { IfOk result (λ r. (vec_len r.1 ≡ threads)
            × ((k : ℕ) → k < threads → slice_get r.1.items k ≡ Some (pass_at (meaning r.0.size) r.0.table k))) }
        ensures roots { IfOk result (λ r. (vec_len r.2 ≡ conds)
            × ((k : ℕ) → k < conds → slice_get r.2.items k ≡ Some (root_at (meaning r.0.size) r.0.table (locks + k)))) }
        ensures rule { IfOk result
            (λ r. Begins (meaning r.0.size) (replicate (word_count r.0.size.threads (key_count r.0.size)) 0) []) }
    {
        let size = Size {
            threads: threads as u64,
            locks: locks as u64,
            conds: conds as u64,
        };
        match WordsOf::open(alloc, &size, Vec::new(alloc), threads, locks, conds) {
            Ok((words, passes, roots)) => Ok((CondWords { words }, passes, roots)),
            Err(slots) => {
                slots.destroy_empty();
                Err(WordsFault::NoMemory)
            }
        }
    }
}
