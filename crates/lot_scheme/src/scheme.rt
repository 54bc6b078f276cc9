//! How the parking lot posts and collects the letters of a lot.
ghost use Rattle.std.specs.Prelude.{◌≡◌};
ghost use Rattle.lot_scheme.specs.Roots.{size_named, Follow};

use crate::contention::{Silent, Tally};
use crate::name::LotName;
use crate::pass::NamedPass;
use crate::root::NamedRoot;
use lot_core::{MAX_KEYS, MAX_THREADS};
use lot_park::{FEW_KEYS, MOST_THREADS, Scheme, Token};
use lot_rights::Named;
use lot_whole::{Keeps, LotWords};
use std::marker::{Model, PhantomData};

// A parking lot, which knows no model, is for as many threads as the model.
const _: () = prove!(MOST_THREADS == MAX_THREADS);

// A table of as many keys as the model may have starts small and grows with its threads.
const _: () = prove!(FEW_KEYS == MAX_KEYS);

/// The words of a lot, as the parking lot sees them.
pub struct LotScheme<V: Keeps, N: LotName<V>, C: Tally = Silent> {
    words: Named<LotWords<V>, N>,
    // How many locks there are, and the number of the first semaphore.
    locks: usize,
    first_sem: usize,
    counts: PhantomData<C>,
}

impl<V: Keeps, N: LotName<V>, C: Tally> Model for LotScheme<V, N, C> {
    ghost use Rattle.std.specs.Prelude.{◌≡◌};
    ghost use Rattle.lot_whole.specs.Shown.{LotWordsShown};
    ghost use Rattle.lot_scheme.specs.Roots.{size_named, Follow};

    ghost Value = { LotWordsShown V };

    ghost view = { λ s. s.words };

    ghost invariant = { λ s. (s.words.table ≡ N.opening.locks)
        × (s.words.size ≡ size_named N.threads N.locks N.conds N.permits)
        × Follow N.locks N.conds N.first_sem × (s.locks ≡ N.locks) × (s.first_sem ≡ N.first_sem) };
}

impl<V: Keeps, N: LotName<V>, C: Tally> LotScheme<V, N, C> {
    /// The words, which get the lot's name here.
    pub fn new(words: LotWords<V>, locks: usize, first_sem: usize) -> LotScheme<V, N, C>
        requires named { words.table ≡ N.opening.locks }
        requires size { words.size ≡ size_named N.threads N.locks N.conds N.permits }
        requires keys { Follow N.locks N.conds N.first_sem × (locks ≡ N.locks) × (first_sem ≡ N.first_sem) }
        ensures { result ≡ words }
    {
        LotScheme {
            words: Named::new(words),
            locks,
            first_sem,
            counts: PhantomData,
        }
    }

    #[inline(always)]
    pub fn words(&self) -> &LotWords<V>
        ensures same { result.now ≡ self.now }
        ensures named { result.now.table ≡ N.opening.locks }
        ensures size { result.now.size ≡ size_named N.threads N.locks N.conds N.permits }
        ensures keys { Follow N.locks N.conds N.first_sem }
    {
        self.words.inner()
    }

    pub fn into_words(self) -> LotWords<V>
        ensures same { result ≡ self }
        ensures named { result.table ≡ N.opening.locks }
        ensures size { result.size ≡ size_named N.threads N.locks N.conds N.permits }
    {
        let LotScheme {
            words,
            locks: _,
            first_sem: _,
            counts: _,
        } = self;
        words.into_inner()
    }
}

impl<V: Keeps + Send, N: LotName<V> + Send, C: Tally + Send> Scheme for LotScheme<V, N, C> {
    ghost use Rattle.lot_scheme.specs.Standing.{IsLooked};

    type Root = NamedRoot<V, N, C>;

    type Pass = NamedPass<V, N>;

    ghost thread = { λ p. p.thread };

    ghost looked = { IsLooked V.Keeps };

    fn thread_of(pass: &NamedPass<V, N>) -> usize {
        pass.thread()
    }

    fn post(&self, root: NamedRoot<V, N, C>, at: usize, token: Token) -> NamedRoot<V, N, C> {
        let (root, tally) = root.apart();
        let root = self.words.inner().post(root, at, token.0);
        NamedRoot::counted(root, tally.told(token.0))
    }

    fn collect(&self, pass: NamedPass<V, N>) -> (NamedPass<V, N>, Option<Token>) {
        let (pass, letter) = self.words.inner().collect(pass.into_pass());
        (NamedPass::new(pass), letter.map(Token))
    }
}
