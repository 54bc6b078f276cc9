//! Names for an opening. What lies behind a lock is known by its type alone, so a right lies there under the name of
//! its opening.
ghost use Rattle.std.specs.Prelude.{◌≡◌};

use std::marker::{Brand, Model, PhantomData};

/// Names one opening: its tables of lock words, of condition words and of semaphore words. Contracts alone read it.
///
/// A program opens first, and then calls, with std's `Brand` for N, a function that is generic over `N: Name`.
pub trait Name {
    ghost use Rattle.lot_rights.specs.Opening.{Opening};

    ghost opening: { Opening };
}

impl Name for Brand {
    ghost use Rattle.lot_rights.specs.Opening.{no_opening};

    ghost opening = { no_opening };
}

/// What belongs to one opening: a pass, a root, or the words themselves.
pub trait OfOpening {
    ghost use Rattle.lot_rights.specs.Opening.{Opening};

    ghost is_of: { Opening → Self → Type 0 };
}

/// A right of the opening that N names. Contracts see it as the right itself.
pub struct Named<T: OfOpening, N: Name> {
    inner: T,
    of: PhantomData<N>,
}

impl<T: OfOpening, N: Name> Model for Named<T, N> {
    ghost Value = { T };

    ghost view = { λ s. s.inner };

    ghost invariant = { λ s. T.is_of N.opening s.inner };
}

impl<T: OfOpening, N: Name> Named<T, N> {
    pub fn new(inner: T) -> Named<T, N>
        requires { T.is_of N.opening inner }
        ensures { result ≡ inner }
    {
        Named {
            inner,
            of: PhantomData,
        }
    }

    pub fn inner(&self) -> &T
        ensures same { result.now ≡ self.now }
        ensures named { T.is_of N.opening result.now }
    {
        &self.inner
    }

    pub fn into_inner(self) -> T
        ensures same { result ≡ self }
        ensures named { T.is_of N.opening result }
    {
        let Named { inner, of: _ } = self;
        inner
    }
}

impl<T: OfOpening + Drop, N: Name> Drop for Named<T, N> {
    fn drop(self) {
        let Named { inner: _, of: _ } = self;
    }
}
