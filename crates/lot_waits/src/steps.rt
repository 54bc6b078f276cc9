//! The steps on a condition's word that a callback of the parking lot makes, while the condition's bucket is locked.
ghost use Rattle.std.specs.Prelude.{◌≡◌, ℕ, length, true, []};
ghost use Rattle.lot_core.specs.Steps.{IsCallCount, SaysMoreBehind, dequeued_count};
ghost use Rattle.lot_park.specs.Parking.{Queues};
ghost use Rattle.lot_waits.specs.Notifying.{Dequeues, DequeuesAll};

use lot_locks::LockSteps;
use lot_scheme::{LotName, LotScheme, NamedPass, NamedRoot, Tally};
use lot_whole::Keeps;

/// A callback hands its pass and its root to one of these. Written for every scheme, since the passes and roots of a
/// lot can't be named in a closure's signature.
pub trait CondSteps: LockSteps {
    ghost use Rattle.std.specs.Prelude.{ℕ, Bool};

    /// The pass may wait on the condition, and has the lock, whose value lies in its slot.
    ghost may_enlist: { Self.Pass → ℕ → ℕ → Type 0 };

    /// The pass before, the condition, the lock, and the pass that is queued on the condition and has the lock still.
    ghost enlists: { Self.Pass → ℕ → ℕ → Self.Pass → Type 0 };

    /// The pass may take threads from the condition's line.
    ghost may_call: { Self.Pass → ℕ → Type 0 };

    /// The pass before, the condition, how many may be taken and how many were, whether its flag stays set, and the
    /// pass that took them.
    ghost calls: { Self.Pass → ℕ → ℕ → ℕ → Bool → Self.Pass → Type 0 };

    /// The pass has lowered the condition's flag, and may take all threads of its line.
    ghost may_sweep: { Self.Pass → ℕ → Type 0 };

    /// The pass before, the condition, how many were taken, and the pass that took them all.
    ghost sweeps: { Self.Pass → ℕ → ℕ → Self.Pass → Type 0 };

    /// The validation of a wait: the thread is queued last, and may let its lock go then.
    fn enlist_last(
        &self,
        pass: Self::Pass,
        root: Self::Root,
        key: usize,
        lock: usize,
    ) -> (Self::Pass, Self::Root)
        requires key { (Self.Root.view root).key ≡ key }
        requires may { may_enlist pass (Self.Root.view root).key lock }
        ensures pass { enlists pass (Self.Root.view root).key lock result.0 }
        ensures lets { Self.may_let_go result.0 lock }
        ensures root { Queues Self.Root.view Self.thread pass root true result.0 result.1 };

    /// The callback of a notification: takes the first `count` threads of the line, or all where they are fewer;
    /// `taken` is how many they are. The flag stays set where more may wait.
    fn call_first(
        &self,
        pass: Self::Pass,
        root: Self::Root,
        key: usize,
        count: usize,
        taken: usize,
        more: bool,
    ) -> (Self::Pass, Self::Root)
        requires key { (Self.Root.view root).key ≡ key }
        requires may { may_call pass (Self.Root.view root).key }
        requires clear { (Self.Root.view root).owes ≡ [] }
        requires count { IsCallCount count }
        requires taken { dequeued_count count (Self.Root.view root).line ≡ taken }
        requires more { SaysMoreBehind count (Self.Root.view root).line more }
        ensures pass { calls pass (Self.Root.view root).key count taken more result.0 }
        ensures root { Dequeues Self.Root.view count root result.1 };

    /// The callback of a notification of all: takes all threads of the line; `taken` is how many they are.
    fn sweep_all(
        &self,
        pass: Self::Pass,
        root: Self::Root,
        key: usize,
        taken: usize,
    ) -> (Self::Pass, Self::Root)
        requires key { (Self.Root.view root).key ≡ key }
        requires may { may_sweep pass (Self.Root.view root).key }
        requires clear { (Self.Root.view root).owes ≡ [] }
        requires taken { length (Self.Root.view root).line ≡ taken }
        ensures pass { sweeps pass (Self.Root.view root).key taken result.0 }
        ensures root { DequeuesAll Self.Root.view root result.1 };
}

impl<V: Keeps + Send, N: LotName<V> + Send, C: Tally + Send> CondSteps for LotScheme<V, N, C> {
    ghost use Rattle.lot_waits.specs.Notifying.{MayCall, Calls, MayTakeAll, Sweeps};
    ghost use Rattle.lot_waits.specs.Waiting.{MayEnlist, Enlists};

    ghost may_enlist = { MayEnlist V.above N.locks N.first_sem };

    ghost enlists = { Enlists };

    ghost may_call = { MayCall N.locks N.first_sem };

    ghost calls = { Calls };

    ghost may_sweep = { MayTakeAll N.locks N.first_sem };

    ghost sweeps = { Sweeps };

    fn enlist_last(
        &self,
        pass: NamedPass<V, N>,
        root: NamedRoot<V, N, C>,
        key: usize,
        lock: usize,
    ) -> (NamedPass<V, N>, NamedRoot<V, N, C>) {
        self.enlist(pass, root, key, lock)
    }

    fn call_first(
        &self,
        pass: NamedPass<V, N>,
        root: NamedRoot<V, N, C>,
        key: usize,
        count: usize,
        taken: usize,
        more: bool,
    ) -> (NamedPass<V, N>, NamedRoot<V, N, C>) {
        self.call(pass, root, key, count, taken, more)
    }

    fn sweep_all(
        &self,
        pass: NamedPass<V, N>,
        root: NamedRoot<V, N, C>,
        key: usize,
        taken: usize,
    ) -> (NamedPass<V, N>, NamedRoot<V, N, C>) {
        self.sweep(pass, root, key, taken)
    }
}
