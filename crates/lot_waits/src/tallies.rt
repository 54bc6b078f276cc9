//! The numbers that are kept of what a pass counts, modulo 2^64.
ghost use Rattle.std.specs.Prelude.{◌≡◌, ℕ, ◌+◌, ◌<◌, slice_index, slice_set, vec_len, IfOk};
ghost use Rattle.lot_core.specs.Parts.{IsAmongConds};
ghost use Rattle.lot_waits.specs.Counts.{CountsView, AreKept, MayCount, called_more, one_wait_more, wrap};
ghost use Rattle.lot_waits.specs.Ledger.{AreAdded};

use std::alloc::{AllocError, Global};

/// By condition, modulo 2^64: the sleepers that a pass took from its line, and its own waits that ended.
#[derive(Drop)]
pub struct Tallies {
    pub called: Vec<u64>,
    pub woken: Vec<u64>,
}

impl Tallies {
    ghost use Rattle.lot_waits.specs.Ledger.{AreZeros};

    /// Tallies for so many conditions, all 0.
    pub fn new(alloc: Global, conds: usize) -> Result<Tallies, AllocError>
        ensures { IfOk result (AreZeros conds) }
    {
        let called = vec![in alloc; 0; conds]?;
        let woken = vec![in alloc; 0; conds]?;
        Ok(Tallies { called, woken })
    }
}

/// One wait of the pass on the condition more has ended. The numbers of the conditions follow those of the locks.
pub fn count_wait(mut tallies: Box<Tallies>, locks: usize, cond: usize) -> Box<Tallies>
    requires { MayCount locks cond tallies.value.called.items tallies.value.woken.items }
    ensures { (conds : ℕ) (q : CountsView) → IsAmongConds locks conds cond
        → AreKept locks conds q tallies.value.called.items tallies.value.woken.items
        → AreKept locks conds (one_wait_more q cond) result.value.called.items result.value.woken.items }
{
    raise(&mut tallies.woken, cond - locks, 1);
    tallies
}

/// The pass has taken so many sleepers more from the condition's line.
pub fn count_taken(
    mut tallies: Box<Tallies>,
    locks: usize,
    cond: usize,
    count: usize,
) -> Box<Tallies>
    requires { MayCount locks cond tallies.value.called.items tallies.value.woken.items }
    ensures { (conds : ℕ) (q : CountsView) → IsAmongConds locks conds cond
        → AreKept locks conds q tallies.value.called.items tallies.value.woken.items
        → AreKept locks conds (called_more q cond count) result.value.called.items result.value.woken.items }
{
    raise(&mut tallies.called, cond - locks, count as u64);
    tallies
}

/// Raises one of the numbers. Where it stays, nothing is written.
fn raise(numbers: &mut Vec<u64>, place: usize, by: u64)
    requires { place < vec_len numbers.old }
    ensures { numbers.new.items ≡
        slice_set numbers.old.items place (wrap (slice_index numbers.old.items place + by)) }
{
    if by > 0 {
        numbers[place] = numbers[place].wrapping_add(by);
    }
}

/// Adds other numbers to them, each to its own.
pub(crate) fn add(numbers: &mut Vec<u64>, others: &Vec<u64>)
    requires { vec_len others.now ≡ vec_len numbers.old }
    ensures { AreAdded numbers.old.items others.now.items numbers.new.items }
{
    for place in 0..numbers.len() {
        raise(numbers, place, others[place]);
    }
}
