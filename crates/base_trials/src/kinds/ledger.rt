//! Conditions that are named and settled with nobody there, and what their ledger then says.
ghost use Rattle.std.specs.Prelude.{◌≡◌};
ghost use Rattle.base_trials.specs.Opened.{AreDealt, AreFreshRoots, size_of};

use crate::kinds::asserts::ledger_is;
use crate::kinds::tables::{Passes, Roots, Words, close_words, deal, gather, open_words};
use crate::kinds::waiters::{Room, deal_waiters, settle};
use crate::rights::tally::Tally;
use lot_rights::WordsFault;
use lot_scheme::LotName;
use std::alloc::Global;
use std::marker::Brand;
use std::process::Abort;
use std::test::*;

// Names the passes of three threads and settles their conditions, where nobody waited or notified.
fn settled_unused<N: LotName<Tally>>(
    rt: &impl Abort,
    alloc: Global,
    words: Words,
    mut passes: Passes,
    roots: Roots,
)
    requires named { words.table ≡ N.opening.locks }
    requires keys { (N.locks ≡ 1) × (N.conds ≡ 2) }
    requires size { words.size ≡ size_of 1 2 }
    requires passes { AreDealt words.table 1 2 passes.items }
    requires roots { AreFreshRoots words.table 1 2 roots.items }
{
    let Ok(room) = Room::new(alloc, 2) else {
        let (zero, one, two) = deal::<N>(&mut passes);
        gather(&mut passes, zero, one, two);
        let _values = close_words::<N>(words, passes, roots);
        return;
    };
    let (three, sums) = deal_waiters::<N>(&mut passes, room);
    let ledger = settle(words, passes, roots, three, sums);
    ledger_is(rt, &ledger, &[0, 0]);
}

// Where a request for memory is refused, all that was taken is freed.
#[test]
fn a_ledger_of_zeros(rt: HostRuntime) {
    match open_words(rt.alloc(), 1, 2) {
        Ok((words, passes, roots)) => {
            settled_unused::<Brand>(&rt, rt.alloc(), words, passes, roots)
        }
        Err(fault) => assert_eq!(rt; fault, WordsFault::NoMemory),
    }
}
