//! Values leave their slots and come back.
ghost use Rattle.std.specs.Prelude.{◌≡◌, ◌<◌};
ghost use Rattle.lot_rights.specs.Slots.{AllowsOut, AllowsBack};

use crate::kind::Kind;
use crate::layout::SPARE_WORD;
use crate::rights::PassOf;
use crate::tells::{BackStep, Moves, OutStep};
use crate::words::WordsOf;

impl<K: Kind> WordsOf<K> {
    /// Puts another value into the slot, and answers the one that lay there: by two loads of the word that nobody
    /// writes, between which the slot is out with the seat. No entry is made.
    #[inline]
    pub fn exchange<N: Moves<K::Pass, K::Slot>, A: Copy>(
        &self,
        pass: PassOf<K>,
        slot: usize,
        new: K::Slot,
        _about: A,
    ) -> (PassOf<K>, K::Slot)
        requires table { pass.table ≡ self.now.table }
        requires named { N.slot ≡ slot }
        requires out { AllowsOut (K.meaning self.now.key) N.slot pass N.mid }
        requires back { (own : K.Pass) (x : K.Slot) → N.mid own x
            → AllowsBack (K.meaning self.now.key) N.slot pass.thread own new (N.back own) }
        ensures table { result.0.table ≡ pass.table }
        ensures same { result.0 ≡ record pass { own = result.0.own } }
        ensures told { (own : K.Pass) × N.mid own result.1 × N.back own result.0.own }
    {
        let shared = &self.table.shared;
        let PassOf { mut seat, thread } = pass;
        shared.load::<OutStep<K, N>>(&mut seat, SPARE_WORD);
        let found = shared.exchange(&mut seat, slot, new);
        shared.load::<BackStep<K, N>>(&mut seat, SPARE_WORD);
        (PassOf { seat, thread }, found)
    }
}
