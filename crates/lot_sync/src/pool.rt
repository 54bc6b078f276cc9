//! The passes that are in, and the room that closing a lot will want.
ghost use Rattle.std.specs.Prelude.{◌≡◌, ◌+◌, ◌-◌, ◌<◌, ◌≤◌, length, vec_len, vec_capacity, IfSome, MatchOption};
ghost use Rattle.std.specs.Prelude.{IsTrue, ◌↔◌};
ghost use Rattle.lot_waits.specs.Ledger.{AreZeros};
ghost use Rattle.lot_sync.specs.Lot.{OwnsNone, rested};

use crate::pass::Pass;
use lot_scheme::{LotName, NamedRoot, Tally};
use lot_waits::Tallies;
use lot_whole::{LotLyingRoot, LotPass};
use lot_words::Keeps;
use std::marker::Model;
use std::sync::Wait;
use std::thread;

/// A pass that is in: it owns no lock, holds no permit, and keeps what passes that are in keep.
pub(crate) struct Idle<V: Keeps + Send, N: LotName<V> + Send> {
    pass: Pass<V, N>,
}

impl<V: Keeps + Send, N: LotName<V> + Send> Model for Idle<V, N> {
    ghost use Rattle.lot_sync.specs.Lot.{PassView, OwnsNone, rested};

    ghost Value = { PassView V };

    ghost view = { λ s. s.pass };

    ghost invariant = { λ s. OwnsNone s.pass × V.rests (rested s.pass) };
}

impl<V: Keeps + Send, N: LotName<V> + Send> Idle<V, N> {
    pub(crate) fn new(pass: Pass<V, N>) -> Idle<V, N>
        requires free { OwnsNone pass }
        requires rests { V.rests (rested pass) }
    {
        Idle { pass }
    }

    fn thread(&self) -> usize {
        self.pass.thread()
    }

    fn into_pass(self) -> Pass<V, N>
        ensures free { OwnsNone result }
        ensures rests { V.rests (rested result) }
    {
        let Idle { pass } = self;
        pass
    }
}

/// The room that closing a lot fills. The lists held the rights before the lot started.
pub(crate) struct ClosingRoom<V: Keeps + Send, N: LotName<V> + Send, C: Tally + Send> {
    passes: Vec<LotPass<V>>,
    roots: Vec<LotLyingRoot<V>>,
    named: Vec<NamedRoot<V, N, C>>,
    counts: Vec<C>,
    sums: Tallies,
    ghost empty: { (vec_len passes ≡ 0) × (vec_len roots ≡ 0) × (vec_len named ≡ 0) × (vec_len counts ≡ 0) },
    ghost for_passes: { N.threads ≤ vec_capacity passes },
    ghost for_roots: { (N.first_sem + length N.permits ≤ vec_capacity roots)
        × (N.first_sem + length N.permits ≤ vec_capacity named)
        × (N.first_sem + length N.permits ≤ vec_capacity counts) },
    ghost zeros: { AreZeros N.conds sums },
}

impl<V: Keeps + Send, N: LotName<V> + Send, C: Tally + Send> ClosingRoom<V, N, C> {
    /// The room of these lists, which are empty, and of sums of nothing.
    pub(crate) fn new(
        passes: Vec<LotPass<V>>,
        roots: Vec<LotLyingRoot<V>>,
        named: Vec<NamedRoot<V, N, C>>,
        counts: Vec<C>,
        sums: Tallies,
    ) -> ClosingRoom<V, N, C>
        requires empty { (vec_len passes ≡ 0) × (vec_len roots ≡ 0) × (vec_len named ≡ 0) × (vec_len counts ≡ 0) }
        requires for_passes { N.threads ≤ vec_capacity passes }
        requires for_roots { (N.first_sem + length N.permits ≤ vec_capacity roots)
            × (N.first_sem + length N.permits ≤ vec_capacity named)
            × (N.first_sem + length N.permits ≤ vec_capacity counts) }
        requires zeros { AreZeros N.conds sums }
    {
        ClosingRoom {
            passes,
            roots,
            named,
            counts,
            sums,
        }
    }

    /// The lists, with room for the passes of all threads, for the roots of all keys and for what was counted with
    /// them, and the sums.
    pub(crate) fn apart(
        self,
    ) -> (
        Vec<LotPass<V>>,
        Vec<LotLyingRoot<V>>,
        Vec<NamedRoot<V, N, C>>,
        Vec<C>,
        Tallies,
    )
        ensures empty { (vec_len result.0 ≡ 0) × (vec_len result.1 ≡ 0) × (vec_len result.2 ≡ 0)
            × (vec_len result.3 ≡ 0) }
        ensures for_passes { N.threads ≤ vec_capacity result.0 }
        ensures for_roots { (N.first_sem + length N.permits ≤ vec_capacity result.1)
            × (N.first_sem + length N.permits ≤ vec_capacity result.2)
            × (N.first_sem + length N.permits ≤ vec_capacity result.3) }
        ensures zeros { AreZeros N.conds result.4 }
    {
        let ClosingRoom {
            passes,
            roots,
            named,
            counts,
            sums,
        } = self;
        (passes, roots, named, counts, sums)
    }
}

/// The passes that are in.
pub(crate) struct Pool<V: Keeps + Send, N: LotName<V> + Send, C: Tally + Send> {
    idle: Vec<Idle<V, N>>,
    room: ClosingRoom<V, N, C>,
}

impl<V: Keeps + Send, N: LotName<V> + Send, C: Tally + Send> Model for Pool<V, N, C> {
    ghost use Rattle.std.specs.Prelude.{ℕ, ◌≤◌, vec_len, vec_capacity};

    /// How many are in.
    ghost Value = { ℕ };

    ghost view = { λ s. vec_len s.idle };

    ghost invariant = { λ s. (vec_len s.idle ≤ N.threads) × (N.threads ≤ vec_capacity s.idle) };
}

impl<V: Keeps + Send, N: LotName<V> + Send, C: Tally + Send> Pool<V, N, C> {
    /// The pool in which these are.
    pub(crate) fn new(idle: Vec<Idle<V, N>>, room: ClosingRoom<V, N, C>) -> Pool<V, N, C>
        requires { (vec_len idle ≤ N.threads) × (N.threads ≤ vec_capacity idle) }
        ensures { result ≡ vec_len idle }
    {
        Pool { idle, room }
    }

    /// The pass of the least number that is in; None where none is.
    pub(crate) fn take_least(&mut self) -> Option<Pass<V, N>>
        ensures free { IfSome result OwnsNone }
        ensures rests { IfSome result (λ pass. V.rests (rested pass)) }
        ensures fewer { MatchOption result ((self.old ≡ 0) × (self.new ≡ 0))
            (λ _. (self.new + 1 ≡ self.old) × (self.new < N.threads)) }
    {
        if self.idle.is_empty() {
            return None;
        }
        let mut least = 0;
        for place in 1..self.idle.len() {
            if self.idle[place].thread() < self.idle[least].thread() {
                least = place;
            }
        }
        Some(self.idle.swap_remove(least).into_pass())
    }

    /// How many passes are out.
    pub(crate) fn count_out(&self, threads: usize) -> usize
        requires { threads ≡ N.threads }
        ensures some { result ≡ threads - self.now }
        ensures few { result ≤ N.threads }
    {
        threads - self.idle.len()
    }

    /// Whether a pass more would fit.
    pub(crate) fn is_full(&self, threads: usize) -> bool
        requires { threads ≡ N.threads }
        ensures { IsTrue result ↔ (N.threads ≤ self.now) }
    {
        self.idle.len() >= threads
    }

    /// Takes a pass in.
    pub(crate) fn put(&mut self, pass: Pass<V, N>)
        requires free { OwnsNone pass }
        requires rests { V.rests (rested pass) }
        requires room { self.old < N.threads }
        ensures { self.new ≡ self.old + 1 }
    {
        self.idle.push_reserved(Idle::new(pass));
    }

    /// The room for closing, once no pass is in. Who closes a lot has all passes, so none is: what no lock's type can
    /// say is tested here.
    pub(crate) fn into_room<R: Wait>(self, rt: &R) -> ClosingRoom<V, N, C> {
        let Pool { idle, room } = self;
        if idle.is_empty() {
            idle.destroy_empty();
            return room;
        }
        for _ in rt.forever() {
            thread::yield_now();
        }
        unreachable!()
    }
}
