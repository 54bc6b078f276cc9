//! The right to act as one thread of a lot.
ghost use Rattle.std.specs.Prelude.{◌≡◌};
ghost use Rattle.lot_sync.specs.Passes.{pass_view_of, IsAtRest, AreTallied, IsPassOf};

use lot_scheme::{LotName, NamedPass};
use lot_waits::Tallies;
use lot_words::Keeps;
use std::marker::Model;

/// The right to act as one thread. It must be spent, by `leave` or `close` of the lot that gave it.
pub struct Pass<V: Keeps + Send, N: LotName<V> + Send> {
    right: NamedPass<V, N>,
    // Apart from the rest, since whoever locks and unlocks moves the pass along and counts nothing.
    tallies: Box<Tallies>,
}

impl<V: Keeps + Send, N: LotName<V> + Send> Model for Pass<V, N> {
    ghost use Rattle.lot_sync.specs.Lot.{PassView};
    ghost use Rattle.lot_sync.specs.Passes.{pass_view_of, IsAtRest, AreTallied};

    ghost Value = { PassView V };

    ghost view = { λ s. pass_view_of s.right };

    ghost invariant = { λ s. IsAtRest V.grows
        (record {
          opening = N.opening;
          first_sem = N.first_sem;
          permits = N.permits;
          locks = N.locks;
          conds = N.conds;
          threads = N.threads;
          values = N.values;
        }) s.right × AreTallied N.locks N.conds s.right s.tallies.value };
}

impl<V: Keeps + Send, N: LotName<V> + Send> Pass<V, N> {
    /// The number of the thread.
    pub fn thread(&self) -> usize
        ensures { result ≡ self.now.thread }
    {
        self.right.thread()
    }

    /// Shows what each pass of a lot is. It changes nothing.
    #[inline(always)]
    pub(crate) fn check_whole(&self)
        ensures { IsPassOf N.LotName V.grows self.now }
    {
        let _right = &self.right;
    }

    /// The pass of this right of a thread, between two calls, with what is kept of its counts.
    #[inline(always)]
    pub(crate) fn at_rest(right: NamedPass<V, N>, tallies: Box<Tallies>) -> Pass<V, N>
        requires rest { IsAtRest V.grows N.LotName right }
        requires kept { AreTallied N.locks N.conds right tallies.value }
        ensures { result ≡ pass_view_of right }
    {
        Pass { right, tallies }
    }

    /// Its right, and what is kept of its counts.
    #[inline(always)]
    pub(crate) fn apart(self) -> (NamedPass<V, N>, Box<Tallies>)
        ensures rest { IsAtRest V.grows N.LotName result.0 }
        ensures kept { AreTallied N.locks N.conds result.0 result.1.value }
        ensures same { self ≡ pass_view_of result.0 }
    {
        let Pass { right, tallies } = self;
        (right, tallies)
    }
}
