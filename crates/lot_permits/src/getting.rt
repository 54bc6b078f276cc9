//! Getting a permit, as WTF's `Lock::lock` gets a lock: barging, a few yields, and then the line.
ghost use Rattle.std.specs.Prelude.{◌<◌, length};
ghost use Rattle.lot_core.specs.Parts.{IsAmongSemaphores};
ghost use Rattle.lot_permits.specs.Seeking.{GetsPermit, IsAwakeFor};

use crate::steps::Sems;
use lot_park::{AtOnce, ParkingLot, Token};
use lot_scheme::{LotName, LotScheme, NamedPass, NamedRoot, Tally};
use lot_seeking::{Look, Seeking, Sought, get_or_park};
use lot_sems::{PARKED, PERMIT, Taken};
use lot_whole::Keeps;
use std::sync::Wait;

impl<V: Keeps + Send, N: LotName<V> + Send, C: Tally + Send> Sought<Sems> for LotScheme<V, N, C> {
    ghost use Rattle.std.specs.Prelude.{length};
    ghost use Rattle.lot_core.specs.Parts.{IsAmongSemaphores};
    ghost use Rattle.lot_permits.specs.Seeking.{Seeks, IsAsleepFor, HasMarked, FindsAnother, IsTurnedBack};

    ghost has = { λ s key. IsAmongSemaphores N.first_sem (length N.permits) key };

    ghost seeks = { Seeks V.above N.first_sem };

    ghost sleeps = { IsAsleepFor V.above N.first_sem };

    ghost changed = { FindsAnother };

    ghost marked = { HasMarked };

    ghost refused = { IsTurnedBack };

    fn look_at(&self, key: usize) -> Look {
        let bits = self.sem_bits(key);
        if bits >= PERMIT {
            Look::Free
        } else if bits & PARKED == 0 {
            Look::Taken
        } else {
            Look::Parked
        }
    }

    #[tactic(auto, using(crate::proofs::Seeking::tried, crate::proofs::Seeking::missed))]
    fn take(&self, pass: NamedPass<V, N>, key: usize) -> (NamedPass<V, N>, bool) {
        let (pass, taken) = self.take_permit(pass, key);
        match taken {
            Taken::Got => (pass, true),
            Taken::Empty | Taken::Busy => (pass, false),
        }
    }

    #[tactic(auto, using(crate::proofs::Seeking::line_laws))]
    fn line_up(
        &self,
        pass: NamedPass<V, N>,
        key: usize,
        is_marked: bool,
    ) -> (NamedPass<V, N>, Seeking) {
        let (pass, taken) = self.take_permit(pass, key);
        match taken {
            Taken::Got => (pass, Seeking::Got),
            Taken::Busy => (pass, Seeking::Waits),
            Taken::Empty if is_marked => (pass, Seeking::Parks),
            Taken::Empty => {
                let (pass, marked) = self.mark_permit(pass, key);
                let now = if marked {
                    Seeking::Parks
                } else {
                    Seeking::Waits
                };
                (pass, now)
            }
        }
    }

    fn queue(
        &self,
        pass: NamedPass<V, N>,
        root: NamedRoot<V, N, C>,
        key: usize,
    ) -> (NamedPass<V, N>, NamedRoot<V, N, C>, bool) {
        self.park_permit(pass, root, key)
    }

    /// A permit is not handed over.
    fn is_handed(_token: Token) -> bool {
        false
    }
}

/// Gets a permit, after a first try that got none, of which this came. Where another thread had just changed the word,
/// this one first does as if no permit were left: it yields, if others seek something too.
#[cold]
#[inline(never)]
pub(crate) fn get_slowly<V: Keeps + Send, N: LotName<V> + Send, C: Tally + Send, R: Wait>(
    rt: &R,
    parking: &ParkingLot<LotScheme<V, N, C>>,
    pass: NamedPass<V, N>,
    key: usize,
    came: Taken,
) -> NamedPass<V, N>
    requires sem { IsAmongSemaphores N.first_sem (length N.permits) key }
    requires key { key < parking.now.keys }
    requires thread { pass.thread < parking.now.threads }
    requires waits { IsAwakeFor V.above N.first_sem pass key pass }
    ensures { GetsPermit pass key result }
{
    let first = match came {
        Taken::Busy => Look::Taken,
        Taken::Got | Taken::Empty => parking.scheme().look_at(key),
    };
    get_or_park::<LotScheme<V, N, C>, Sems, R, AtOnce>(rt, parking, pass, key, first, &AtOnce)
}
