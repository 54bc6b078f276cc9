//! Objects of one thread.
ghost use Rattle.std.specs.Prelude.{◌≡◌};

/// An object that one thread can use. Write an `impl` for the object that your threads are to share: a `Journal` of it
/// is then a value that a lock can guard. Where it goes between threads, the object, its calls and its replies have to
/// be `Send`.
///
/// - `after o c`: the object `o` after the call `c`.
/// - `reply o c`: what the object `o` replies to the call `c`.
///
/// A counter has `type Call = Add;` and `type Reply = u64;`, its `after` is the counter with the sum, and its `reply`
/// is that sum.
pub trait Sequential: Drop {
    /// What it can be asked to do.
    type Call: Copy;
    /// What it replies.
    type Reply: Copy;

    ghost after: { Self → Self.Call → Self };

    ghost reply: { Self → Self.Call → Self.Reply };

    /// Makes the call. It is a function of the object and the call, as `after` and `reply` say.
    fn apply(&mut self, call: &Self::Call) -> Self::Reply
        ensures object { self.new ≡ after self.old call.now }
        ensures reply { result ≡ reply self.old call.now };
}
