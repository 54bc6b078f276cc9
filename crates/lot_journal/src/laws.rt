//! What a legal history means: laws, each the contract of a function that does nothing.
ghost use Rattle.std.specs.Prelude.{◌≡◌, ◌↔◌, ℕ, List, ◌∷◌, ◌++◌};
ghost use Rattle.lot_journal.specs.declared.entry.Entry.{Entry};
ghost use Rattle.lot_journal.specs.Legal.{IsLegal, AreLegalInTurn};
ghost use Rattle.lot_journal.specs.Journal.{JournalView, GoesOn, calls_of, OnlyOthersCalled};

use crate::sequential::Sequential;

/// A legal history can be cut anywhere: its beginning is legal, and the rest is legal from where that ended. And what
/// is legal in turn is legal as one history.
pub fn a_beginning_is_legal<O: Sequential>()
    ensures { (first last : O) (history more : List (Entry O.Call O.Reply))
        → IsLegal O.after O.reply first (history ++ more) last
        ↔ AreLegalInTurn O.after O.reply first history more last }
{}

/// Each reply of a legal history is what the object of one thread replies at that point: the object to which all calls
/// before it led.
pub fn replies_are_of_one_thread<O: Sequential>()
    ensures { (first last : O) (before behind : List (Entry O.Call O.Reply)) (entry : Entry O.Call O.Reply)
        → IsLegal O.after O.reply first (before ++ entry ∷ behind) last
        → (object : O) × IsLegal O.after O.reply first before object × (O.reply object entry.call ≡ entry.reply) }
{}

/// The opening object and the history settle the object to which they led.
pub fn the_history_settles_the_object<O: Sequential>()
    ensures { (first one other : O) (history : List (Entry O.Call O.Reply)) → IsLegal O.after O.reply first history one
        → IsLegal O.after O.reply first history other → one ≡ other }
{}

/// Where a journal has grown and a thread's part of it is the same, only other threads called: of the thread's own
/// calls the history has those that it had, and no other.
pub fn own_calls_are_those_made<O: Sequential>()
    ensures { (thread : ℕ) (old new : JournalView O O.Call O.Reply) → GoesOn old new
        → calls_of thread old ≡ calls_of thread new → OnlyOthersCalled thread old new }
{}
