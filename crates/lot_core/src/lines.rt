//! Lines of sleepers, one for each key of a kind.
ghost use Rattle.std.specs.Prelude.{◌≡◌, ◌+◌, ◌-◌, ◌<◌, ◌↔◌, ◌++◌, ◌∷◌, ℕ, [], length, IsTrue, IfOk, OnOk, OnErr, drop};
ghost use Rattle.std.specs.Prelude.{Some, slice_get};
ghost use Rattle.std.specs.List.{Contains};

use std::alloc::{AllocError, Global};
use std::collections::VecDeque;

/// The line of each key of a kind: the threads that are queued on it, first to come first.
#[derive(Debug, Drop)]
pub(crate) struct Lines {
    /// The first key of the kind.
    low: usize,
    lines: Vec<VecDeque<usize>>,
}

impl Lines {
    ghost use Rattle.lot_core.specs.Model.{put};
    ghost use Rattle.lot_core.specs.Steps.{first, dequeued_count};
    ghost use Rattle.lot_core.specs.Sound.{IsOnce};
    ghost use Rattle.lot_core.specs.Lines.{line_of, key_count, HasKey, KeepsKeys, no_lines};

    /// Empty lines for `count` keys from `low` on.
    pub(crate) fn new(alloc: Global, low: usize, count: usize) -> Result<Lines, AllocError>
        ensures keys { IfOk result (λ s. (s.low ≡ low) × (key_count s ≡ count)) }
        ensures empty { IfOk result (λ s. line_of s ≡ no_lines) }
    {
        let mut lines = Vec::with_capacity(alloc, count)?;
        for _ in 0..count {
            lines.push(VecDeque::new(alloc))?;
        }
        Ok(Lines { low, lines })
    }

    fn has_key(&self, key: usize) -> bool
        ensures { IsTrue result ↔ HasKey self.now key }
    {
        key >= self.low && key - self.low < self.lines.len()
    }

    /// How many threads are queued on this key.
    pub(crate) fn len(&self, key: usize) -> usize
        requires { HasKey self.now key }
        ensures { result ≡ length (line_of self.now key) }
    {
        self.lines[key - self.low].len()
    }

    /// The thread that came first of those queued on this key.
    pub(crate) fn first(&self, key: usize) -> Option<usize>
        requires { HasKey self.now key }
        ensures { result ≡ first (line_of self.now key) }
    {
        self.lines[key - self.low].front().copied()
    }

    /// Whether this thread is queued on this key; on a key of another kind nobody is.
    pub(crate) fn contains(&self, key: usize, thread: usize) -> bool
        ensures { IsTrue result ↔ Contains (line_of self.now key) thread }
    {
        if !self.has_key(key) {
            return false;
        }
        self.lines[key - self.low].contains(&thread)
    }

    /// Puts the thread last.
    pub(crate) fn push(&mut self, key: usize, thread: usize) -> Result<(), AllocError>
        requires { HasKey self.old key }
        ensures ok { OnOk result (line_of self.new ≡
            put (line_of self.old) key (line_of self.old key ++ thread ∷ [])) }
        ensures err { OnErr result (line_of self.new ≡ line_of self.old) }
        ensures keys { KeepsKeys self.old self.new }
    {
        self.lines[key - self.low].push_back(thread)?;
        Ok(())
    }

    /// Takes the thread that came first.
    pub(crate) fn take_first(&mut self, key: usize) -> Option<usize>
        requires { HasKey self.old key }
        ensures first { result ≡ first (line_of self.old key) }
        ensures rest { line_of self.new ≡ put (line_of self.old) key (drop 1 (line_of self.old key)) }
        ensures keys { KeepsKeys self.old self.new }
    {
        self.lines[key - self.low].pop_front()
    }

    /// Takes the first `count` threads, or all where there are fewer, and answers how many.
    pub(crate) fn dequeue(&mut self, key: usize, count: usize) -> usize
        requires { HasKey self.old key }
        ensures count { result ≡ dequeued_count count (line_of self.old key) }
        ensures rest { line_of self.new ≡ put (line_of self.old) key (drop count (line_of self.old key)) }
        ensures keys { KeepsKeys self.old self.new }
    {
        let leaving = count.min(self.len(key));
        for _ in 0..leaving {
            self.take_first(key);
        }
        leaving
    }

    /// Whether nobody is queued on this key.
    pub(crate) fn is_empty(&self, key: usize) -> bool
        requires { HasKey self.now key }
        ensures { IsTrue result ↔ (line_of self.now key ≡ []) }
    {
        self.len(key) == 0
    }

    /// The thread at this place of the key's line.
    pub(crate) fn at(&self, key: usize, place: usize) -> usize
        requires key { HasKey self.now key }
        requires place { place < length (line_of self.now key) }
        ensures { slice_get (line_of self.now key) place ≡ Some result }
    {
        self.lines[key - self.low][place]
    }

    // Whether the thread at this place stands at an earlier place too.
    fn is_again(&self, key: usize, place: usize) -> bool
        requires key { HasKey self.now key }
        requires place { place < length (line_of self.now key) }
        ensures { IsTrue result ↔ ((i : ℕ) × (i < place) × (slice_get (line_of self.now key) i ≡
            slice_get (line_of self.now key) place)) }
    {
        let thread = self.at(key, place);
        for i in 0..place {
            if self.at(key, i) == thread {
                return true;
            }
        }
        false
    }

    /// Whether no thread is queued on this key twice.
    pub(crate) fn is_once(&self, key: usize) -> bool
        requires { HasKey self.now key }
        ensures { IsTrue result ↔ IsOnce (line_of self.now key) }
    {
        for place in 0..self.len(key) {
            if self.is_again(key, place) {
                return false;
            }
        }
        true
    }
}
