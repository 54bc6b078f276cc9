//! What the locks of `count` guard, in a journal: a counter.
use lot_journal::Sequential;

/// The call: add this much.
#[derive(Clone, Copy, Debug, PartialEq, Eq)]
pub struct Add(pub u64);

/// A total, modulo 2^64. Adding replies the new total.
#[derive(Clone, Copy, Debug, PartialEq, Eq)]
pub struct Counter {
    pub total: u64,
}

impl Sequential for Counter {
    ghost use Rattle.lot_load.specs.Counters.{counter_after, total_after};

    type Call = Add;

    type Reply = u64;

    ghost after = { counter_after };

    ghost reply = { total_after };

    fn apply(&mut self, call: &Add) -> u64 {
        self.total = self.total.wrapping_add(call.0);
        self.total
    }
}
