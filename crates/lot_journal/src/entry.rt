//! One line of a history.

/// A call that was made: by which thread, which call, and what it replied. A `Journal` lends the entries of all its
/// calls as its `history`.
#[derive(Clone, Copy, Debug, PartialEq, Eq)]
pub struct Entry<C, R> {
    pub thread: usize,
    pub call: C,
    pub reply: R,
}
