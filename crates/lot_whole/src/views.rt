//! What contracts see of the rights: a pass is one of each kind, with how the thread stands; a root is that of one
//! kind. No value of these types is made by running code.
use lot_conds::views::{CondPassView, CondRootView};
use lot_sems::views::{SemPassView, SemRootView};
use lot_words::views::{LockPassView, LockRootView};

/// How a thread stands at a condition, which no kind tells alone: nowhere, at the bed of a condition with a lock that
/// it has yet to let go, or at rest on a condition after it let the lock go.
pub enum Stand {
    Idle,
    AtBed(u64, u64),
    AtRest(u64, u64),
}

/// What a thread's pass knows, beside its thread and the entries that were made with it.
pub struct LotPassView<V> {
    pub locks: LockPassView<V>,
    pub conds: CondPassView,
    pub sems: SemPassView,
    pub stand: Stand,
}

/// What the root of a key knows, beside the key and its entries.
pub enum LotRootView {
    Lock(LockRootView),
    Cond(CondRootView),
    Sem(SemRootView),
}
