//! What a caller concludes from the laws of the history of a call for which two rights come to one seat.
ghost use Rattle.std.specs.Prelude.{ℕ, List};
ghost use Rattle.atomic_table.specs.Table.{State};
ghost use Rattle.lot_rights.specs.declared.views.Entry.{Entry};
ghost use Rattle.lot_rights.specs.declared.views.PassRight.{PassRight};
ghost use Rattle.lot_rights.specs.declared.views.RootRight.{RootRight};
ghost use Rattle.lot_rights.specs.declared.views.Right.{Right};
ghost use Rattle.lot_rights.specs.Rule.{Ruled};
ghost use Rattle.base_trials.specs.Accesses.{CallOfTwo, IsOneAccess};

use lot_rights::Kind;
use lot_rights::laws::{one_entry_is_one_access, seats_show_what_their_rights_show};

// A pass and a root come to one seat, the pass makes an access, and they part again: the history
// has that access more, and no other.
fn a_call_of_two_is_one_access<K: Kind>()
    ensures { (key : K.Key) (s joined made parted : State K.Slot (List (Right K.Pass K.Root)))
        (before : Ruled (K.meaning key) s) →
        Ruled (K.meaning key) joined → Ruled (K.meaning key) made → (after : Ruled (K.meaning key) parted) →
        (id other : ℕ) (p p' : PassRight K.Pass) (q q' : RootRight K.Root) (x : Entry) →
        CallOfTwo s joined made parted id other p p' q q' x → IsOneAccess (K.meaning key) s parted before after x }
{
    one_entry_is_one_access::<K>();
    seats_show_what_their_rights_show::<K>();
}
