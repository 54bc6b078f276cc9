//! Steps of a pass and a root, which come to one seat for one access; the step of a root; and what two passes, and a
//! root, tell.
ghost use Rattle.std.specs.Prelude.{◌≡◌, ◌≢◌, ℕ, ◌+◌, ◌^◌, ◌%◌, ◌<◌, ◌⊎◌, [], ◌∷◌, drop, bit_and};
ghost use Rattle.lot_rights.specs.Layout.{word_at, letter_at};
ghost use Rattle.lot_rights.specs.declared.views.Right.TheVariants.{Pass, Root};
ghost use Rattle.lot_rights.specs.Shown.{PassShown, RootShown, right_of_pass, right_of_root, the_pass, the_root};
ghost use Rattle.lot_rights.specs.Shown.{pass_at_table, root_at_table};
ghost use Rattle.lot_rights.specs.Steps.{AllowsBoth, AllowsRoot, TellsOfTwo, TellsOfRoot};

use crate::kind::{Kind, RightsSeat};
use crate::layout::SPARE_WORD;
use crate::rights::{Numbered, Numbering, PassOf, RootAt, RootOf};
use crate::seated::AtSeat;
use crate::tells::{
    Both, BothStep, FactStep, FirstAndRest, RootStep, TellsBoth, TellsFact, TellsRoot, TwoStep,
};
use crate::words::WordsOf;

impl<K: Kind> WordsOf<K> {
    // The pass and the root at one seat.
    fn joined(&self, pass: PassOf<K>, root: RootOf<K>) -> RightsSeat<K>
        requires table { (pass.table ≡ self.now.table) × (root.table ≡ self.now.table) }
        ensures table { result.table_id ≡ self.now.table }
        ensures rights { result.me ≡ (Pass (right_of_pass pass) ∷ Root (right_of_root root) ∷ [], []) }
        ensures near { (letter_at pass.thread < result.table_id.words)
            × (word_at root.key < result.table_id.words) }
        ensures small { result.table_id.words < 2 ^ 64 }
        ensures letters { (u : ℕ) → K.names root.own u → letter_at u < result.table_id.words }
    {
        let shared = &self.table.shared;
        let mut seat = pass.seat();
        shared.join_seat::<Both>(&mut seat, root.seat());
        seat
    }

    fn parted(&self, mut seat: RightsSeat<K>, thread: usize, key: usize) -> (PassOf<K>, RootOf<K>)
        requires table { seat.table_id ≡ self.now.table }
        requires rights { seat.me
            ≡ (Pass (the_pass K.no_pass seat.me.0) ∷ Root (the_root K.no_root (drop 1 seat.me.0)) ∷ [], []) }
        requires named { (thread ≡ (the_pass K.no_pass seat.me.0).thread)
            × (key ≡ (the_root K.no_root (drop 1 seat.me.0)).key) }
        requires near { (letter_at thread < seat.table_id.words) × (word_at key < seat.table_id.words) }
        requires small { seat.table_id.words < 2 ^ 64 }
        requires letters { (u : ℕ) → K.names (the_root K.no_root (drop 1 seat.me.0)).own u
            → letter_at u < seat.table_id.words }
        ensures pass { result.0 ≡ pass_at_table seat.table_id (the_pass K.no_pass seat.me.0) }
        ensures root { result.1 ≡ root_at_table seat.table_id (the_root K.no_root (drop 1 seat.me.0)) }
    {
        let shared = &self.table.shared;
        let other = shared.split_seat::<FirstAndRest>(&mut seat);
        (
            PassOf { seat, thread },
            RootAt {
                seat: other,
                number: Numbered::of(key),
            },
        )
    }

    /// One load of the word, for which the pass and the root come to one seat. The root may name the pass's thread from
    /// now on, and no other that it did not.
    pub fn load_both<N: TellsBoth<K::Pass, K::Root>, A: Copy>(
        &self,
        pass: PassOf<K>,
        root: RootOf<K>,
        word: usize,
        _about: A,
    ) -> (PassOf<K>, RootOf<K>, u64)
        requires table { (pass.table ≡ self.now.table) × (root.table ≡ self.now.table) }
        requires named { N.table ≡ pass.table }
        requires word { word < self.now.table.words }
        requires allows { AllowsBoth (K.meaning self.now.key) word (λ n. n) pass root N.then }
        requires names { (n : ℕ) (p : PassShown K.Pass) (q : RootShown K.Root) → N.then n p q → (u : ℕ)
            → K.names q.own u → K.names root.own u ⊎ (u ≡ pass.thread) }
        ensures table { (result.0.table ≡ pass.table) × (result.1.table ≡ root.table) }
        ensures same { (result.0.thread ≡ pass.thread) × (result.1.key ≡ root.key) }
        ensures told { N.then result.2 result.0 result.1 }
    {
        let thread = pass.thread();
        let key = root.key();
        let mut seat = self.joined(pass, root);
        let shared = &self.table.shared;
        let found = shared.load::<BothStep<K, N>>(&mut seat, word);
        let (pass, root) = self.parted(seat, thread, key);
        (pass, root, found)
    }

    /// One store to the word, for which the pass and the root come to one seat. The root may name the pass's thread
    /// from now on, and no other that it did not.
    pub fn store_both<N: TellsBoth<K::Pass, K::Root>, A: Copy>(
        &self,
        pass: PassOf<K>,
        root: RootOf<K>,
        word: usize,
        new: u64,
        _about: A,
    ) -> (PassOf<K>, RootOf<K>)
        requires table { (pass.table ≡ self.now.table) × (root.table ≡ self.now.table) }
        requires named { N.table ≡ pass.table }
        requires word { word < self.now.table.words }
        requires allows { AllowsBoth (K.meaning self.now.key) word (λ _. new) pass root (λ _. N.then new) }
        requires names { (n : ℕ) (p : PassShown K.Pass) (q : RootShown K.Root) → N.then n p q → (u : ℕ)
            → K.names q.own u → K.names root.own u ⊎ (u ≡ pass.thread) }
        ensures table { (result.0.table ≡ pass.table) × (result.1.table ≡ root.table) }
        ensures same { (result.0.thread ≡ pass.thread) × (result.1.key ≡ root.key) }
        ensures told { N.then new result.0 result.1 }
    {
        let thread = pass.thread();
        let key = root.key();
        let mut seat = self.joined(pass, root);
        let shared = &self.table.shared;
        shared.store::<BothStep<K, N>>(&mut seat, word, new);
        self.parted(seat, thread, key)
    }

    /// One fetch-add of the word, for which the pass and the root come to one seat. The root may name the pass's thread
    /// from now on, and no other that it did not.
    pub fn fetch_add_both<N: TellsBoth<K::Pass, K::Root>, A: Copy>(
        &self,
        pass: PassOf<K>,
        root: RootOf<K>,
        word: usize,
        more: u64,
        _about: A,
    ) -> (PassOf<K>, RootOf<K>, u64)
        requires table { (pass.table ≡ self.now.table) × (root.table ≡ self.now.table) }
        requires named { N.table ≡ pass.table }
        requires word { word < self.now.table.words }
        requires allows { AllowsBoth (K.meaning self.now.key) word
            (λ n. (n + more) % 2 ^ 64) pass root N.then }
        requires names { (n : ℕ) (p : PassShown K.Pass) (q : RootShown K.Root) → N.then n p q → (u : ℕ)
            → K.names q.own u → K.names root.own u ⊎ (u ≡ pass.thread) }
        ensures table { (result.0.table ≡ pass.table) × (result.1.table ≡ root.table) }
        ensures same { (result.0.thread ≡ pass.thread) × (result.1.key ≡ root.key) }
        ensures told { N.then result.2 result.0 result.1 }
    {
        let thread = pass.thread();
        let key = root.key();
        let mut seat = self.joined(pass, root);
        let shared = &self.table.shared;
        let found = shared.fetch_add::<BothStep<K, N>>(&mut seat, word, more);
        let (pass, root) = self.parted(seat, thread, key);
        (pass, root, found)
    }

    /// One fetch-and of the word, for which the pass and the root come to one seat. The root may name the pass's thread
    /// from now on, and no other that it did not.
    pub fn fetch_and_both<N: TellsBoth<K::Pass, K::Root>, A: Copy>(
        &self,
        pass: PassOf<K>,
        root: RootOf<K>,
        word: usize,
        mask: u64,
        _about: A,
    ) -> (PassOf<K>, RootOf<K>, u64)
        requires table { (pass.table ≡ self.now.table) × (root.table ≡ self.now.table) }
        requires named { N.table ≡ pass.table }
        requires word { word < self.now.table.words }
        requires allows { AllowsBoth (K.meaning self.now.key) word (λ n. bit_and n mask) pass root N.then }
        requires names { (n : ℕ) (p : PassShown K.Pass) (q : RootShown K.Root) → N.then n p q → (u : ℕ)
            → K.names q.own u → K.names root.own u ⊎ (u ≡ pass.thread) }
        ensures table { (result.0.table ≡ pass.table) × (result.1.table ≡ root.table) }
        ensures same { (result.0.thread ≡ pass.thread) × (result.1.key ≡ root.key) }
        ensures told { N.then result.2 result.0 result.1 }
    {
        let thread = pass.thread();
        let key = root.key();
        let mut seat = self.joined(pass, root);
        let shared = &self.table.shared;
        let found = shared.fetch_and::<BothStep<K, N>>(&mut seat, word, mask);
        let (pass, root) = self.parted(seat, thread, key);
        (pass, root, found)
    }

    /// One store to the word, with the root. The root names no thread that it did not.
    pub fn store_root<N: TellsRoot<K::Root>, B: Numbering, A: Copy>(
        &self,
        root: RootAt<K, B>,
        word: usize,
        new: u64,
        _about: A,
    ) -> RootAt<K, B>
        requires table { root.table ≡ self.now.table }
        requires named { N.table ≡ root.table }
        requires word { word < self.now.table.words }
        requires allows { AllowsRoot (K.meaning self.now.key) word (λ _. new) root (λ _. N.then new) }
        requires names { (n : ℕ) (q : RootShown K.Root) → N.then n q → (u : ℕ) → K.names q.own u
            → K.names root.own u }
        ensures table { result.table ≡ root.table }
        ensures same { result.key ≡ root.key }
        ensures told { N.then new result }
    {
        let shared = &self.table.shared;
        let RootAt { mut seat, number } = root;
        shared.store::<RootStep<K, N>>(&mut seat, word, new);
        RootAt { seat, number }
    }

    /// Gives both passes back as they were. The point is what it proves: they are of two threads, and whatever follows
    /// in a world that knows both.
    pub fn check_two<N: TellsFact>(
        &self,
        first: PassOf<K>,
        second: PassOf<K>,
    ) -> (PassOf<K>, PassOf<K>)
        requires table { (first.table ≡ self.now.table) × (second.table ≡ self.now.table) }
        requires tells { TellsOfTwo (K.meaning self.now.key) first second N.fact }
        ensures same { (result.0 ≡ first) × (result.1 ≡ second) }
        ensures apart { (first.thread ≢ second.thread) × N.fact }
    {
        let shared = &self.table.shared;
        let PassOf {
            mut seat,
            thread: one,
        } = first;
        let PassOf {
            seat: other,
            thread: two,
        } = second;
        shared.join_seat::<Both>(&mut seat, other);
        shared.load::<TwoStep<K, N>>(&mut seat, SPARE_WORD);
        let other = shared.split_seat::<FirstAndRest>(&mut seat);
        (
            PassOf { seat, thread: one },
            PassOf {
                seat: other,
                thread: two,
            },
        )
    }

    /// Gives the root back as it was. The point is what it proves: whatever follows of a moment of this call, at which
    /// the table's history had exactly the entries of the root.
    pub fn check_root<N: TellsFact, B: Numbering>(&self, root: RootAt<K, B>) -> RootAt<K, B>
        requires table { root.table ≡ self.now.table }
        requires tells { TellsOfRoot (K.meaning self.now.key) root N.fact }
        ensures same { result ≡ root }
        ensures fact { N.fact }
    {
        let shared = &self.table.shared;
        let RootAt { mut seat, number } = root;
        shared.load::<FactStep<K, N>>(&mut seat, SPARE_WORD);
        RootAt { seat, number }
    }
}
