//! What the rule of a lot means: laws, each the contract of a function that does nothing. Those of the history
//! itself, which are the same for every kind of table, are lot_rights' (`lot_rights::laws`).
ghost use Rattle.std.specs.Prelude.{List, Option};
ghost use Rattle.atomic_table.specs.Table.{State};
ghost use Rattle.lot_rights.specs.declared.views.Right.{Right};
ghost use Rattle.lot_rights.specs.Rule.{Ruled};
ghost use Rattle.lot_whole.specs.declared.views.LotPassView.{LotPassView};
ghost use Rattle.lot_whole.specs.declared.views.LotRootView.{LotRootView};
ghost use Rattle.lot_whole.specs.Family.{LotSize};
ghost use Rattle.lot_whole.specs.Whole.{Joins, StandsMove};
ghost use Rattle.lot_whole.specs.Lot.{lot_meaning};
ghost use Rattle.lot_whole.specs.Headline.{OneState, Promises};
ghost use Rattle.lot_whole.specs.Order.{LettersFollow, CountsFollow};

use lot_words::Keeps;

/// A step that a kind allows is one of the whole where its thread stands as the event asks, and leaves the other
/// kinds' parts as they are; and of what no part tells, its own thread alone moves.
pub fn parts_join<V: Keeps>()
    ensures joins { (z : LotSize) (xs : List V) → Joins V.Keeps z xs }
    ensures stands { StandsMove }
{}

/// At every moment there is one sound state of the whole model that words and rights stand for, and the history without
/// its notices is one run of the model from the opening to it. In it each thread is in one line at most, over all
/// kinds.
pub fn one_state_at_every_moment<V: Keeps>()
    ensures { (z : LotSize) (xs : List V) (s : State (Option V) (List (Right (LotPassView V) LotRootView)))
        (here : Ruled (lot_meaning V.Keeps z xs) s) → OneState V.Keeps z xs s here }
{}

/// A table that keeps a lot's rule has that one state, and of the worlds that tell its parts what each kind promises.
pub fn the_rule_is_the_headline<V: Keeps>()
    ensures { (z : LotSize) (xs : List V) (s : State (Option V) (List (Right (LotPassView V) LotRootView)))
        (here : Ruled (lot_meaning V.Keeps z xs) s) → Promises V.Keeps z xs s here }
{}

/// A letter that a thread collects after it was queued at a key, by an Enlist, a Park or a SemPark, comes after the
/// event that took it from the key's line: a Call or a Sweep of the condition, a Pass of the lock, or a SemPass of the
/// semaphore. So it is in the log that `close` tells of, whose clause `history` has what is asked here.
pub fn letters_follow()
    ensures { LettersFollow }
{}

/// What a thread counted of a key is so of the entries before it: how many of them told a thread that it was taken from
/// the key's line, or queued one there. They are those of the log that `close` tells of, whose clauses `history` and
/// `counted` have what is asked here.
pub fn counts_follow()
    ensures { CountsFollow }
{}
