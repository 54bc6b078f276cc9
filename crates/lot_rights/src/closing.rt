//! Closing: rights come back.
ghost use Rattle.std.specs.Prelude.{◌≡◌, ◌<◌, ◌++◌, map, reverse, vec_len};
ghost use Rattle.std.specs.Slots.{slots_items, slots_len, IsFull};
ghost use Rattle.lot_rights.specs.Shown.{PassShown, RootShown};
ghost use Rattle.std.specs.List.{All};
ghost use Rattle.lot_rights.specs.Closing.{Ended};

use crate::kind::{Kind, RightsSeat, RightsShared};
use crate::rights::{Numbering, PassOf, RootAt};
use crate::seated::AtSeat;
use crate::tells::Both;
use crate::words::WordsOf;
use atomic_table::Closed;
use std::alloc::Global;

/// All these rights come to one seat.
fn gather<K: Kind, T: AtSeat<K>>(
    shared: &RightsShared<K>,
    mut seat: RightsSeat<K>,
    mut rights: Vec<T>,
) -> RightsSeat<K>
    requires table { (seat.table_id ≡ shared.now.table_id) × (0 < shared.now.table_id.words) }
    requires all { All (λ (r : T). (T.single r).0 ≡ shared.now.table_id) rights.items }
    ensures table { result.table_id ≡ shared.now.table_id }
    ensures rights { result.me.0 ≡ seat.me.0 ++ map (λ (r : T). (T.single r).1) (reverse rights.items) }
{
    while let Some(right) = rights.pop() {
        shared.join_seat::<Both>(&mut seat, right.seat());
    }
    rights.destroy_empty();
    seat
}

impl<K: Kind> WordsOf<K> {
    /// Ends the table. What it tells is of the last world, and of the one history that has led there: of it these
    /// rights have made just the entries that they show. A table without slots has only `Closed::free` to do then.
    pub fn close<A: Numbering>(
        self,
        mut passes: Vec<PassOf<K>>,
        roots: Vec<RootAt<K, A>>,
    ) -> Closed<K::Slot, Global>
        requires table { All (λ (p : PassShown K.Pass). p.table ≡ self.table) passes.items
            × All (λ (q : RootShown K.Root). q.table ≡ self.table) roots.items }
        requires some { 0 < vec_len passes }
        ensures full { IsFull result.words × IsFull result.slots × (slots_len result.slots ≡ self.table.slots) }
        ensures ended { Ended (K.meaning self.key) passes.items roots.items (slots_items result.words)
            (slots_items result.slots) }
    {
        let WordsOf { table } = self;
        let seat = passes.take_last().seat();
        let seat = gather(&table.shared, seat, passes);
        let seat = gather(&table.shared, seat, roots);
        table.close_with(seat)
    }
}
