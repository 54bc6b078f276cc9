//! How busy the line of a key is: what is counted with its root, by lots that are started so.
//!
//! A root is in hand only where its bucket is locked, so counting costs no atomic access, and nothing at all where
//! nobody parks or wakes another.
ghost use Rattle.std.specs.Prelude.{◌≡◌, ℕ, ◌+◌, ◌<◌, []};
ghost use Rattle.lot_rights.specs.History.{one_if_handoff};
ghost use Rattle.lot_scheme.specs.Counts.{IsContention};

use crate::name::LotName;
use crate::pass::NamedPass;
use crate::root::NamedRoot;
use crate::scheme::LotScheme;
use lot_park::{ParkingLot, Scheme};
use lot_whole::Keeps;
use std::cmp;
use std::sync::Wait;

/// What was counted of a key since its lot was opened. Each number is one modulo 2^64.
#[derive(Clone, Copy, Debug, PartialEq, Eq)]
pub struct Contention {
    /// How many threads were queued: all that were taken since, and those that wait still.
    pub parked: u64,
    /// How many were taken from the line and told so.
    pub taken: u64,
    /// How many of these were handed the lock. A condition and a semaphore hand nothing over.
    pub handed: u64,
    /// How often a thread came to park, and found that it had better try again. Nothing is promised of it.
    pub again: u64,
    /// How many waited at most at a time. Nothing is promised of it.
    pub longest: u64,
}

/// What a root counts with it.
pub trait Tally: Copy {
    /// So many were queued, taken, and handed the lock, where it counts them.
    ghost counts: { Self → ℕ → ℕ → ℕ → Type 0 };

    /// Of a key on which nobody has parked yet.
    fn none() -> Self
        ensures { counts result 0 0 0 };

    /// One was queued.
    fn queued(self) -> Self
        ensures { (p t h : ℕ) → counts self p t h → counts result (p + 1) t h };

    /// One came to park, and was not queued.
    fn turned_back(self) -> Self
        ensures { (p t h : ℕ) → counts self p t h → counts result p t h };

    /// One was taken, and told this token.
    fn told(self, token: u32) -> Self
        ensures { (p t h : ℕ) → counts self p t h → counts result p (t + 1) (h + one_if_handoff token) };
}

/// Counts nothing, and takes no bytes.
#[derive(Clone, Copy)]
pub struct Silent;

impl Tally for Silent {
    ghost counts = { λ _ _ _ _. Unit {0} };

    #[inline(always)]
    fn none() -> Silent {
        Silent
    }

    #[inline(always)]
    fn queued(self) -> Silent {
        self
    }

    #[inline(always)]
    fn turned_back(self) -> Silent {
        self
    }

    #[inline(always)]
    fn told(self, _token: u32) -> Silent {
        self
    }
}

impl Tally for Contention {
    ghost counts = { λ c p t h. IsContention p t h c };

    fn none() -> Contention {
        Contention {
            parked: 0,
            taken: 0,
            handed: 0,
            again: 0,
            longest: 0,
        }
    }

    fn queued(self) -> Contention {
        let parked = self.parked.wrapping_add(1);
        Contention {
            parked,
            taken: self.taken,
            handed: self.handed,
            again: self.again,
            longest: cmp::max(self.longest, parked.wrapping_sub(self.taken)),
        }
    }

    fn turned_back(self) -> Contention {
        Contention {
            parked: self.parked,
            taken: self.taken,
            handed: self.handed,
            again: self.again.wrapping_add(1),
            longest: self.longest,
        }
    }

    fn told(self, token: u32) -> Contention {
        Contention {
            parked: self.parked,
            taken: self.taken.wrapping_add(1),
            handed: self.handed.wrapping_add((token == 1) as u64),
            again: self.again,
            longest: self.longest,
        }
    }
}

/// A scheme whose roots count. Written for every scheme, since the roots of a lot can't be named in a closure's
/// signature.
pub trait CountsKeys: Scheme {
    ghost use Rattle.std.specs.Prelude.{ℕ};
    ghost use Rattle.lot_scheme.specs.declared.contention.Contention.{Contention};

    /// This was counted of the key, at some moment.
    ghost counted: { ℕ → Contention → Type 0 };

    /// The second pass is the first, which has counted this of the key.
    ghost counts: { Self.Pass → ℕ → Contention → Self.Pass → Type 0 };

    /// The root as it was, and what was counted with it.
    fn look_at(&self, root: Self::Root) -> (Self::Root, Contention)
        requires clear { (Self.Root.view root).owes ≡ [] }
        ensures same { result.0 ≡ root }
        ensures counted { counted (Self.Root.view root).key result.1 };

    /// The pass, with an entry that tells what was counted with the root, the root as it was, and what was counted.
    fn count(
        &self,
        pass: Self::Pass,
        root: Self::Root,
        key: usize,
    ) -> (Self::Pass, Self::Root, Contention)
        requires named { (Self.Root.view root).key ≡ key }
        requires clear { (Self.Root.view root).owes ≡ [] }
        ensures same { result.1 ≡ root }
        ensures counts { counts pass key result.2 result.0 };
}

impl<V: Keeps + Send, N: LotName<V> + Send> CountsKeys for LotScheme<V, N, Contention> {
    ghost use Rattle.lot_scheme.specs.Roots.{size_named};
    ghost use Rattle.lot_scheme.specs.Counts.{WasCounted, HasCounted};

    ghost counted = { WasCounted V.Keeps (size_named N.threads N.locks N.conds N.permits) };

    ghost counts = { HasCounted };

    fn look_at(
        &self,
        root: NamedRoot<V, N, Contention>,
    ) -> (NamedRoot<V, N, Contention>, Contention) {
        let (root, tally) = root.apart();
        let root = self.words().check_root(root);
        (NamedRoot::counted(root, tally), tally)
    }

    fn count(
        &self,
        pass: NamedPass<V, N>,
        root: NamedRoot<V, N, Contention>,
        key: usize,
    ) -> (NamedPass<V, N>, NamedRoot<V, N, Contention>, Contention) {
        let (root, tally) = root.take_up(key);
        let (pass, root) = self.words().count(pass.into_pass(), root);
        (
            NamedPass::new(pass),
            NamedRoot::lay_down(root, tally),
            tally,
        )
    }
}

/// What was counted of the key, at some moment of this call: it locks the key's bucket, takes nobody from its line, and
/// looks.
pub fn key_contention<S: CountsKeys, R: Wait>(
    rt: &R,
    parking: &ParkingLot<S>,
    key: usize,
) -> Contention
    requires { key < parking.now.keys }
    ensures { S.counted key result }
{
    let scheme = parking.scheme();
    let (seen, _none) = parking.unpark_count(
        rt,
        key,
        0,
        (),
        |_x: (), root: S::Root, _taken: usize, _more: bool| -> (Contention, S::Root)
            requires clear { (S.Root.view root).owes ≡ [] }
            ensures same { result.1 ≡ root }
            ensures counted { S.counted (S.Root.view root).key result.0 }
        {
            let (root, seen) = scheme.look_at(root);
            (seen, root)
        },
    );
    seen
}

/// The same, told by the history: the pass has an entry for it.
pub fn note_contention<S: CountsKeys, R: Wait>(
    rt: &R,
    parking: &ParkingLot<S>,
    pass: S::Pass,
    key: usize,
) -> (S::Pass, Contention)
    requires { key < parking.now.keys }
    ensures { S.counts pass key result.1 result.0 }
{
    let scheme = parking.scheme();
    let (counted, _none) = parking.unpark_count(
        rt,
        key,
        0,
        pass,
        |pass: S::Pass, root: S::Root, _taken: usize, _more: bool| -> (
            (S::Pass, Contention),
            S::Root,
        )
            requires named { (S.Root.view root).key ≡ key }
            requires clear { (S.Root.view root).owes ≡ [] }
            ensures same { result.1 ≡ root }
            ensures counts { S.counts pass key result.0.1 result.0.0 }
        {
            let (pass, root, seen) = scheme.count(pass, root, key);
            ((pass, seen), root)
        },
    );
    counted
}
