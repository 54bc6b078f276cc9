//! Letters: a thread is told by the letter that it was taken from a line. Who has the root of that line's key posts it,
//! and with its pass the thread collects it.
ghost use Rattle.std.specs.Prelude.{◌≡◌, ℕ, suc, ◌+◌, ◌≤◌, MatchOption};
ghost use Rattle.lot_rights.specs.Layout.{letter_at};
ghost use Rattle.lot_rights.specs.Shown.{RootShown};
ghost use Rattle.lot_rights.specs.Steps.{AllowsPass, AllowsRoot};

use crate::kind::Kind;
use crate::rights::{Numbering, PassOf, RootAt};
use crate::tells::{TellsPass, TellsRoot};
use crate::words::WordsOf;
use std::marker::Brand;

/// A thread's word where no letter lies. Where one lies, the word is its token and 1.
const NO_LETTER: u64 = 0;

impl<K: Kind> WordsOf<K> {
    /// Posts a letter with this token to a thread that the root names, by one store. The root names no thread that it
    /// did not.
    pub fn post<N: TellsRoot<K::Root>, B: Numbering>(
        &self,
        root: RootAt<K, B>,
        thread: usize,
        token: u32,
    ) -> RootAt<K, B>
        requires table { root.table ≡ self.now.table }
        requires named { N.table ≡ root.table }
        requires owes { K.names root.own thread }
        requires allows { AllowsRoot (K.meaning self.now.key) (letter_at thread) (λ _. token + 1) root
            (λ _. N.then (token + 1)) }
        requires names { (n : ℕ) (q : RootShown K.Root) → N.then n q → (u : ℕ) → K.names q.own u
            → K.names root.own u }
        ensures table { result.table ≡ root.table }
        ensures told { N.then (token + 1) result }
    {
        let letter = root.letter_of(thread);
        self.store_root::<N, B, ()>(root, letter, token as u64 + 1, ())
    }

    /// Collects the letter of the pass's thread, by one swap, and answers its token where one lay. A token is 0 or 1.
    pub fn collect<N: TellsPass<K::Pass>>(&self, pass: PassOf<K>) -> (PassOf<K>, Option<u32>)
        requires table { pass.table ≡ self.now.table }
        requires named { N.table ≡ pass.table }
        requires allows { AllowsPass (K.meaning self.now.key) (letter_at pass.thread) (λ _. 0) pass
            (λ n p. (n ≤ 2) × N.then n p) }
        ensures table { result.0.table ≡ pass.table }
        ensures letter { MatchOption result.1 (N.then 0 result.0) (λ token. N.then (suc token) result.0) }
    {
        let place = pass.letter();
        let (pass, letter) = self.swap::<Brand, ()>(pass, place, NO_LETTER, ());
        if letter == NO_LETTER {
            return (pass, None);
        }
        (pass, Some((letter - 1) as u32))
    }
}
