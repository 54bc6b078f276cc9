//! Starting a lot under its name: its roots go to the parking lot, its passes into the pool.
ghost use Rattle.std.specs.Prelude.{◌≡◌, ℕ, vec_len, IfOk, IfErr};
ghost use Rattle.lot_rights.specs.Shown.{PassShown, RootShown};
ghost use Rattle.lot_whole.specs.Shown.{LotWordsShown};
ghost use Rattle.lot_sync.specs.Opened.{IsNamed, IsOpened, HasNumbersOf};
ghost use Rattle.lot_sync.specs.Starting.{MayStart};

use crate::closing::unname;
use crate::fault::OpenFault;
use crate::lot::Lot;
use crate::opened::Opened;
use crate::rooms::{Rooms, name_roots, pool_of};
use lot_park::{ParkFault, ParkingLot};
use lot_scheme::{Contention, LotName, LotScheme, Silent, Tally};
use lot_whole::{LotLyingRoot, LotPass, LotWords};
use lot_words::Keeps;
use std::alloc::Global;

/// Closes words whose locks nobody ever got: the values that they opened with come back.
pub(crate) fn close_unused<V: Keeps + Send>(
    words: LotWords<V>,
    passes: Vec<LotPass<V>>,
    roots: Vec<LotLyingRoot<V>>,
) -> Vec<V>
    requires unused { (threads locks conds sems : ℕ)
        × IsOpened V.Keeps words passes.items roots.items threads locks conds sems }
    ensures { result.items ≡ words.values }
{
    words.close(passes, roots)
}

impl<V: Keeps + Send> Opened<V> {
    /// Ends an opening that is not started: the opening values come back.
    pub fn close(self) -> Vec<V>
        ensures { result.items ≡ self.values }
    {
        let Opened {
            words,
            passes,
            roots,
            threads: _,
            locks: _,
            conds: _,
            sems: _,
        } = self;
        close_unused(words, passes, roots)
    }

    /// Starts the lot under the name N: its passes are in, its locks are free, nobody waits on its conditions, and all
    /// permits are left. A pass that starts has to keep what passes that are in keep.
    ///
    /// `NoMemory` where a request for memory was refused: the opening values come back.
    pub fn start<N: LotName<V> + Send>(
        self,
        alloc: Global,
    ) -> Result<Lot<V, N>, (OpenFault, Vec<V>)>
        requires named { IsNamed N.LotName self }
        requires rests { MayStart V.rests self }
        ensures lot { IfOk result (HasNumbersOf self) }
        ensures back { IfErr result (λ e. (e.0 ≡ OpenFault.NoMemory) × (e.1.items ≡ self.values)) }
    {
        self.start_as::<N, Silent>(alloc)
    }

    /// `start` of a lot that counts how busy each key's line is: [`contention`](Lot::contention) tells it meanwhile,
    /// and [`close_counted`](Lot::close_counted) at the end. It takes some 130 bytes more for each key, of which more
    /// than half lie unused until the end. It counts where a thread parks or is woken, with the key's bucket locked, so
    /// a call that does neither is the same.
    pub fn start_counting<N: LotName<V> + Send>(
        self,
        alloc: Global,
    ) -> Result<Lot<V, N, Contention>, (OpenFault, Vec<V>)>
        requires named { IsNamed N.LotName self }
        requires rests { MayStart V.rests self }
        ensures lot { IfOk result (HasNumbersOf self) }
        ensures back { IfErr result (λ e. (e.0 ≡ OpenFault.NoMemory) × (e.1.items ≡ self.values)) }
    {
        self.start_as::<N, Contention>(alloc)
    }

    fn start_as<N: LotName<V> + Send, C: Tally + Send>(
        self,
        alloc: Global,
    ) -> Result<Lot<V, N, C>, (OpenFault, Vec<V>)>
        requires named { IsNamed N.LotName self }
        requires rests { MayStart V.rests self }
        ensures lot { IfOk result (HasNumbersOf self) }
        ensures back { IfErr result (λ e. (e.0 ≡ OpenFault.NoMemory) × (e.1.items ≡ self.values)) }
    {
        match Rooms::<V, N, C>::new(alloc, self.threads, self.roots.len(), self.conds) {
            Ok(rooms) => started(alloc, self, rooms),
            Err(_) => Err((OpenFault::NoMemory, self.close())),
        }
    }
}

fn started<V: Keeps + Send, N: LotName<V> + Send, C: Tally + Send>(
    alloc: Global,
    opened: Opened<V>,
    rooms: Rooms<V, N, C>,
) -> Result<Lot<V, N, C>, (OpenFault, Vec<V>)>
    requires named { IsNamed N.LotName opened }
    requires rests { MayStart V.rests opened }
    ensures lot { IfOk result (HasNumbersOf opened) }
    ensures back { IfErr result (λ e. (e.0 ≡ OpenFault.NoMemory) × (e.1.items ≡ opened.values)) }
{
    let Opened {
        words,
        passes,
        mut roots,
        threads,
        locks,
        conds,
        sems,
    } = opened;
    let Rooms {
        idle,
        mut named,
        counts,
        tallies,
        sums,
    } = rooms;
    name_roots(&mut roots, &mut named);
    let scheme = LotScheme::new(words, locks, locks + conds);
    match ParkingLot::open(alloc, threads, named, scheme) {
        Ok((parking, named)) => {
            let pool = pool_of(passes, tallies, idle, roots, named, counts, sums);
            Ok(Lot::of(parking, pool, threads, locks, conds, sems))
        }
        Err((ParkFault::NoMemory, named, scheme)) => {
            idle.destroy_empty();
            unname(named, &mut roots);
            let values = close_unused(scheme.into_words(), passes, roots);
            Err((OpenFault::NoMemory, values))
        }
    }
}
