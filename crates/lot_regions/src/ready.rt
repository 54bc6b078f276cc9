//! Which conditions belong to a lock, and when whoever waits on one may go on.
ghost use Rattle.std.specs.Prelude.{◌≡◌, ◌<◌, ◌≤◌, ◌^◌, ℕ, Bool};

use lot_words::Keeps;

/// What the conditions of a lock mean. The conditions `first key` to `behind key`, without that last, belong to the
/// lock `key` alone, and `ready cond v` says of one of them that whoever waits on it may go on where the value `v` lies
/// in its lock. Conditions are numbered from the number of locks on.
pub trait Ready: Keeps {
    ghost first: { ℕ → ℕ };

    ghost behind: { ℕ → ℕ };

    ghost ready: { ℕ → Self → Bool };

    /// The first condition of the lock.
    fn first_of(key: usize) -> usize
        requires { first key < 2 ^ 64 }
        ensures { result ≡ first key };

    /// The condition after the last of the lock: the first, where the lock has none.
    fn behind_of(key: usize) -> usize
        requires { behind key < 2 ^ 64 }
        ensures { result ≡ behind key };

    /// Whether whoever waits on the condition may go on.
    fn is_ready(&self, cond: usize) -> bool
        ensures { result ≡ ready cond self.now };

    ghost apart: { (k l c : ℕ) → first k ≤ c → c < behind k → first l ≤ c → c < behind l → k ≡ l };
}
