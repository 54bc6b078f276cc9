//! The words of a table, and the steps of a pass on them.
ghost use Rattle.std.specs.Prelude.{◌≡◌, ◌<◌, ◌==◌, bit_or};
ghost use prog.Atomic.{either};
ghost use Rattle.lot_rights.specs.Steps.{AllowsPass};

use crate::kind::{Kind, RightsTable};
use crate::rights::PassOf;
use crate::tells::{PassStep, TellsPass};
use std::marker::Model;

/// The words of a table of rights, with its slots.
pub struct WordsOf<K: Kind> {
    pub(crate) table: RightsTable<K>,
    pub(crate) ghost some: { 0 < table.shared.table_id.words },
}

impl<K: Kind> Model for WordsOf<K> {
    ghost use Rattle.lot_rights.specs.Shown.{WordsShown};

    ghost Value = { WordsShown K.Key };

    ghost view = { λ s. record { table = s.table.shared.table_id; key = s.table.shared.key } };
}

/// Each step is one access of one word. What it tells is picked by `N`, which is std's `Brand`, from the step's
/// arguments; `_about` is what else the pick needs to know, and code reads it nowhere. What is to be shown for a step
/// is that it is allowed in every world that the words can stand for; what it tells is then so.
impl<K: Kind> WordsOf<K> {
    /// The word as it was just now. It is an observation, of which nothing is promised.
    #[inline(always)]
    pub fn peek(&self, word: usize) -> u64
        requires { word < self.now.table.words }
    {
        self.table.shared.peek(word)
    }

    /// One load of the word.
    #[inline(always)]
    pub fn load<N: TellsPass<K::Pass>, A: Copy>(
        &self,
        pass: PassOf<K>,
        word: usize,
        _about: A,
    ) -> (PassOf<K>, u64)
        requires table { pass.table ≡ self.now.table }
        requires named { N.table ≡ pass.table }
        requires word { word < self.now.table.words }
        requires allows { AllowsPass (K.meaning self.now.key) word (λ n. n) pass N.then }
        ensures table { result.0.table ≡ pass.table }
        ensures thread { result.0.thread ≡ pass.thread }
        ensures told { N.then result.1 result.0 }
    {
        let shared = &self.table.shared;
        let PassOf { mut seat, thread } = pass;
        let found = shared.load::<PassStep<K, N>>(&mut seat, word);
        (PassOf { seat, thread }, found)
    }

    /// One store to the word.
    #[inline(always)]
    pub fn store<N: TellsPass<K::Pass>, A: Copy>(
        &self,
        pass: PassOf<K>,
        word: usize,
        new: u64,
        _about: A,
    ) -> PassOf<K>
        requires table { pass.table ≡ self.now.table }
        requires named { N.table ≡ pass.table }
        requires word { word < self.now.table.words }
        requires allows { AllowsPass (K.meaning self.now.key) word (λ _. new) pass (λ _. N.then new) }
        ensures table { result.table ≡ pass.table }
        ensures thread { result.thread ≡ pass.thread }
        ensures told { N.then new result }
    {
        let shared = &self.table.shared;
        let PassOf { mut seat, thread } = pass;
        shared.store::<PassStep<K, N>>(&mut seat, word, new);
        PassOf { seat, thread }
    }

    /// One swap of the word.
    #[inline(always)]
    pub fn swap<N: TellsPass<K::Pass>, A: Copy>(
        &self,
        pass: PassOf<K>,
        word: usize,
        new: u64,
        _about: A,
    ) -> (PassOf<K>, u64)
        requires table { pass.table ≡ self.now.table }
        requires named { N.table ≡ pass.table }
        requires word { word < self.now.table.words }
        requires allows { AllowsPass (K.meaning self.now.key) word (λ _. new) pass N.then }
        ensures table { result.0.table ≡ pass.table }
        ensures thread { result.0.thread ≡ pass.thread }
        ensures told { N.then result.1 result.0 }
    {
        let shared = &self.table.shared;
        let PassOf { mut seat, thread } = pass;
        let found = shared.swap::<PassStep<K, N>>(&mut seat, word, new);
        (PassOf { seat, thread }, found)
    }

    /// One fetch-or of the word.
    #[inline(always)]
    pub fn fetch_or<N: TellsPass<K::Pass>, A: Copy>(
        &self,
        pass: PassOf<K>,
        word: usize,
        bits: u64,
        _about: A,
    ) -> (PassOf<K>, u64)
        requires table { pass.table ≡ self.now.table }
        requires named { N.table ≡ pass.table }
        requires word { word < self.now.table.words }
        requires allows { AllowsPass (K.meaning self.now.key) word (λ n. bit_or n bits) pass N.then }
        ensures table { result.0.table ≡ pass.table }
        ensures thread { result.0.thread ≡ pass.thread }
        ensures told { N.then result.1 result.0 }
    {
        let shared = &self.table.shared;
        let PassOf { mut seat, thread } = pass;
        let found = shared.fetch_or::<PassStep<K, N>>(&mut seat, word, bits);
        (PassOf { seat, thread }, found)
    }

    /// One compare-exchange of the word.
    #[inline(always)]
    pub fn compare_exchange<N: TellsPass<K::Pass>, A: Copy>(
        &self,
        pass: PassOf<K>,
        word: usize,
        old: u64,
        new: u64,
        _about: A,
    ) -> (PassOf<K>, u64)
        requires table { pass.table ≡ self.now.table }
        requires named { N.table ≡ pass.table }
        requires word { word < self.now.table.words }
        requires allows { AllowsPass (K.meaning self.now.key) word (λ n. either (n == old) new n) pass N.then }
        ensures table { result.0.table ≡ pass.table }
        ensures thread { result.0.thread ≡ pass.thread }
        ensures told { N.then result.1 result.0 }
    {
        let shared = &self.table.shared;
        let PassOf { mut seat, thread } = pass;
        let found = shared.compare_exchange::<PassStep<K, N>>(&mut seat, word, old, new);
        (PassOf { seat, thread }, found)
    }
}
