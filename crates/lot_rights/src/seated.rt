//! Rights at seats: a pass and a root each have a seat, at which they are the only right.
use crate::kind::{Kind, RightsSeat};
use crate::rights::{Numbering, PassOf, RootAt};

/// A pass or a root.
pub(crate) trait AtSeat<K: Kind> {
    ghost use Rattle.std.specs.Prelude.{◌≡◌, [], ◌∷◌};
    ghost use Rattle.atomic_table.specs.Seated.{TableId};
    ghost use Rattle.lot_rights.specs.declared.views.Right.{Right};

    ghost single: { Self → TableId × Right K.Pass K.Root };

    /// Its seat, without the number that it has with it.
    fn seat(self) -> RightsSeat<K>
        ensures there { result.table_id ≡ (single self).0 }
        ensures alone { result.me ≡ ((single self).1 ∷ [], []) };
}

impl<K: Kind> AtSeat<K> for PassOf<K> {
    ghost use Rattle.lot_rights.specs.Single.{single_pass};

    ghost single = { single_pass };

    fn seat(self) -> RightsSeat<K> {
        let PassOf { seat, thread: _ } = self;
        seat
    }
}

impl<K: Kind, A: Numbering> AtSeat<K> for RootAt<K, A> {
    ghost use Rattle.lot_rights.specs.Single.{single_root};

    ghost single = { single_root };

    fn seat(self) -> RightsSeat<K> {
        let RootAt { seat, number: _ } = self;
        seat
    }
}
