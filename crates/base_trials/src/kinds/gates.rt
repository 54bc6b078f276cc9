//! A lot whose scheme holds one thread where it begins to look for its letter.
ghost use Rattle.std.specs.Prelude.{◌≡◌};

use crate::park::askings::{ASKINGS, is_within};
use crate::rights::tally::Tally;
use lot_locks::{LockSteps, Locks, Released};
use lot_park::{ParkingLot, Scheme, Token, UnparkResult};
use lot_scheme::{LotName, LotScheme, NamedPass, NamedRoot};
use lot_seeking::{Look, Seeking, Sought};
use lot_words::Keeps;
use std::marker::Model;
use std::sync::atomic::{AtomicU64, Ordering};

const RAISED: u64 = 1;

// A lot's scheme, which holds thread 1 where it begins to look for its letter, until the gate opens, and notes what it
// finds: the token and 1.
pub(crate) struct Gated<V: Keeps, N: LotName<V>> {
    inner: LotScheme<V, N>,
    gate: AtomicU64,
    found: AtomicU64,
}

impl<V: Keeps, N: LotName<V>> Model for Gated<V, N> {
    ghost use Rattle.lot_whole.specs.Shown.{LotWordsShown};

    ghost Value = { LotWordsShown V };

    ghost view = { λ s. s.inner };
}

impl<V: Keeps, N: LotName<V>> Gated<V, N> {
    pub(crate) fn new(inner: LotScheme<V, N>) -> Gated<V, N>
        ensures { result ≡ inner }
    {
        Gated {
            inner,
            gate: AtomicU64::new(0),
            found: AtomicU64::new(0),
        }
    }

    pub(crate) fn open_gate(&self) {
        self.gate.store(RAISED, Ordering::SeqCst);
    }

    // The token that thread 1 found last, and 1.
    pub(crate) fn found(&self) -> u64 {
        self.found.load(Ordering::SeqCst)
    }

    pub(crate) fn inner(&self) -> &LotScheme<V, N>
        ensures { result.now ≡ self.now }
    {
        &self.inner
    }

    pub(crate) fn into_inner(self) -> LotScheme<V, N>
        ensures { result ≡ self }
    {
        let Gated {
            inner,
            gate: _,
            found: _,
        } = self;
        inner
    }

    fn await_gate(&self, thread: usize) {
        if thread == 1 {
            let _opened = is_within(&self.gate, RAISED, ASKINGS);
        }
    }

    fn note(&self, thread: usize, letter: Option<Token>) {
        if let Some(token) = letter {
            if thread == 1 {
                self.found.store(u64::from(token.0) + 1, Ordering::SeqCst);
            }
        }
    }
}

impl<V: Keeps + Send, N: LotName<V> + Send> Scheme for Gated<V, N> {
    ghost use Rattle.lot_scheme.specs.Standing.{IsLooked};

    type Root = NamedRoot<V, N>;

    type Pass = NamedPass<V, N>;

    ghost thread = { λ p. p.thread };

    ghost looked = { IsLooked V.Keeps };

    fn thread_of(pass: &NamedPass<V, N>) -> usize {
        pass.thread()
    }

    fn post(&self, root: NamedRoot<V, N>, at: usize, token: Token) -> NamedRoot<V, N> {
        self.inner.post(root, at, token)
    }

    fn collect(&self, pass: NamedPass<V, N>) -> (NamedPass<V, N>, Option<Token>) {
        let thread = pass.thread();
        self.await_gate(thread);
        let (pass, letter) = self.inner.collect(pass);
        self.note(thread, letter);
        (pass, letter)
    }
}

// Locks are sought as in the scheme within.
impl<V: Keeps + Send, N: LotName<V> + Send> Sought<Locks> for Gated<V, N> {
    ghost use Rattle.std.specs.Prelude.{◌<◌};
    ghost use Rattle.lot_locks.specs.Standing.{IsAsleepFor, Seeks, HasMarked, FindsAnother, IsTurnedBack};

    ghost has = { λ s key. key < N.locks };

    ghost seeks = { Seeks V.Keeps N.locks };

    ghost sleeps = { IsAsleepFor V.above N.locks };

    ghost changed = { FindsAnother };

    ghost marked = { HasMarked };

    ghost refused = { IsTurnedBack };

    fn look_at(&self, key: usize) -> Look {
        self.inner.look_at(key)
    }

    fn take(&self, pass: NamedPass<V, N>, key: usize) -> (NamedPass<V, N>, bool) {
        Sought::<Locks>::take(&self.inner, pass, key)
    }

    fn line_up(
        &self,
        pass: NamedPass<V, N>,
        key: usize,
        is_marked: bool,
    ) -> (NamedPass<V, N>, Seeking) {
        self.inner.line_up(pass, key, is_marked)
    }

    fn queue(
        &self,
        pass: NamedPass<V, N>,
        root: NamedRoot<V, N>,
        key: usize,
    ) -> (NamedPass<V, N>, NamedRoot<V, N>, bool) {
        self.inner.queue(pass, root, key)
    }

    fn is_handed(token: Token) -> bool {
        LotScheme::<V, N>::is_handed(token)
    }
}

// And let go so too.
impl<V: Keeps + Send, N: LotName<V> + Send> LockSteps for Gated<V, N> {
    ghost use Rattle.lot_locks.specs.Standing.{MayFree, MayPass, LetsGo, PassesOn};

    ghost may_pass = { MayPass N.locks };

    ghost may_let_go = { MayFree };

    ghost lets_go = { LetsGo };

    ghost passes_on = { PassesOn };

    fn free(&self, pass: NamedPass<V, N>, key: usize) -> (NamedPass<V, N>, bool) {
        LockSteps::free(&self.inner, pass, key)
    }

    fn hand_over(
        &self,
        pass: NamedPass<V, N>,
        root: NamedRoot<V, N>,
        key: usize,
        told: UnparkResult,
        fair: bool,
    ) -> (NamedPass<V, N>, NamedRoot<V, N>, Token, Released) {
        self.inner.hand_over(pass, root, key, told, fair)
    }
}

pub(crate) type GatedLot<N> = ParkingLot<Gated<Tally, N>>;
