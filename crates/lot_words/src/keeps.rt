//! The caller's meaning of the values that locks guard.
ghost use Rattle.std.specs.Prelude.{ℕ};
ghost use Rattle.lot_words.specs.Rested.{Rested};

/// What the values of a lock have to keep. Write an `impl` for the type that your locks guard: every value that is put
/// back into a lock has to keep the rule, and every owner may then rely on it. Contracts name the rule `V.Keeps`.
///
/// - `keeps k v`: the value `v` may lie in the lock of key `k`. Where it is left out, any value may lie in any.
/// - `grows a b`: `b` goes on from `a`. Whoever gets a lock finds a value that has grown from all that the same
///   thread had seen of it. Where it is left out, any value goes on from any.
/// - `part t v`: what of `v` belongs to the thread `t`. Only `t` may change it.
/// - `rests p`: what a thread shows when it leaves, of what it has seen, counted and done, as that it leaves its own
///   part of each value as it found it. Whoever registers, or takes a pass that was left, has it. Where it is left out,
///   nothing is asked.
/// - `above j k`: the key k lies above the key j, so who has the lock, or a permit, of j may wait for k, as
///   `λ j k. j < k`. Where it is left out, whoever has any key may wait for any. Where it rises by some level no circle
///   of threads ever waits (`lot_order`).
pub trait Keeps: Drop {
    /// What of a value belongs to one thread.
    type Part;

    ghost keeps: { ℕ → Self → Type 0 } = { λ key value. Unit {0} };

    ghost grows: { Self → Self → Type 0 } = { λ old new. Unit {0} };

    ghost part: { ℕ → Self → Self.Part };

    ghost rests: { Rested Self → Type 0 } = { λ rested. Unit {0} };

    ghost above: { ℕ → ℕ → Type 0 } = { λ j k. Unit {0} };

    ghost grows_itself: { (x : Self) → grows x x };

    ghost grows_on: { (x y z : Self) → grows x y → grows y z → grows x z };
}
