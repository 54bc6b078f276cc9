ghost use Rattle.std.specs.Prelude.{◌≡◌, ℕ, Option, Some, None, MatchOption};
ghost use Rattle.std.specs.List.{Contains};
ghost use Rattle.lot_park.specs.Parking.{without_debt};

use lot_bucket::Root;

/// What a sleeper is told by whoever unparks it, as the token of WTF's ParkingLot.
#[derive(Clone, Copy, Debug, PartialEq, Eq)]
pub struct Token(pub u32);

/// Where the letters of a parking lot lie, and who may act as which thread.
///
/// The parking lot is written for every scheme. A lot's letters lie in the one ruled table of its locks, conditions and
/// semaphores, where each thread has one word for its letters of all kinds.
pub trait Scheme {
    type Root: Root;

    /// The right to act as one thread. It is no `Drop`: it comes back from each call.
    type Pass;

    /// The thread's number.
    ghost thread: { Self.Pass → ℕ };

    /// What a look for the thread's letter does: the pass before, the token where a letter lay, and the
    /// pass after.
    ghost looked: { Self.Pass → Option ℕ → Self.Pass → Type 0 };

    fn thread_of(pass: &Self::Pass) -> usize
        ensures { result ≡ thread pass.now };

    /// Posts one of the letters that the root owes, to the thread `at`.
    fn post(&self, root: Self::Root, at: usize, token: Token) -> Self::Root
        requires { Contains (Self.Root.view root).owes (at, token.0) }
        ensures key { (Self.Root.view result).key ≡ (Self.Root.view root).key }
        ensures line { (Self.Root.view result).line ≡ (Self.Root.view root).line }
        ensures owes { (Self.Root.view result).owes ≡ without_debt at token.0 (Self.Root.view root).owes };

    /// Looks for the letter of the pass's thread, and takes it where one lies.
    fn collect(&self, pass: Self::Pass) -> (Self::Pass, Option<Token>)
        ensures thread { thread result.0 ≡ thread pass }
        ensures looked { MatchOption result.1 (looked pass None result.0) (λ t. looked pass (Some t.0) result.0) };
}

/// What a thread does that was queued, before it sleeps. No bucket is locked then.
pub trait BeforeSleep {
    /// It ran. Code that is written for every action knows this of one only by running it.
    ghost ran: { Self → Type 0 } = { λ _. Unit {0} };

    fn run(&self)
        ensures { ran self.now };
}

/// Nothing: the thread sleeps at once.
pub struct AtOnce;

impl BeforeSleep for AtOnce {
    #[inline(always)]
    fn run(&self) {}
}
