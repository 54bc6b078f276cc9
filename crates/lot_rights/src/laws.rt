//! What the history means, for every kind: laws, each the contract of a function that does nothing.
ghost use Rattle.lot_rights.specs.Settled.{RightsSettle, OneEntryIsOneAccess, NoEntryIsNone, RuledSeatsShow};
ghost use Rattle.lot_rights.specs.Settled.{RuledHasOneRun};

use crate::kind::Kind;

/// The rights settle the history: two histories of the same rights are one, and have led to the same part of the model
/// and the same letters.
pub fn rights_settle_the_history<K: Kind>()
    ensures { (key : K.Key) → RightsSettle (K.meaning key) }
{}

/// One entry more, shown by the right that made it, is one access, this one, made of what the words told just then; and
/// no other was made. Where the rights lie is nothing to it: so it speaks of the calls of one right, and of those for
/// which two come to one seat.
pub fn one_entry_is_one_access<K: Kind>()
    ensures { (key : K.Key) → OneEntryIsOneAccess (K.meaning key) }
{}

/// Where no right has another entry, no access was made, and the words tell the same.
pub fn no_entry_is_none<K: Kind>()
    ensures { (key : K.Key) → NoEntryIsNone (K.meaning key) }
{}

/// Seats that join and split show what they showed. Where the first right of a seat shows one entry more, and those
/// beside it what they showed, the seats show one entry more.
pub fn seats_show_what_their_rights_show<K: Kind>()
    ensures { (key : K.Key) → RuledSeatsShow (K.meaning key) }
{}

/// At every moment each right is in exactly one place, and the history without its notices is one run of the model.
pub fn the_rule_has_one_run<K: Kind>()
    ensures { (key : K.Key) → RuledHasOneRun (K.meaning key) }
{}
