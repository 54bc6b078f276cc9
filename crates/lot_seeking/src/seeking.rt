//! Getting what a thread may have to park for, a lock or a permit, as WTF's `Lock::lock` gets a lock: a few yields, and
//! then the line.
//!
//! Where none was left, nobody was marked as parked, and nobody else seeks, the thread first tries twice more. Then
//! each turn goes by what the word told, the first by what the caller had seen, each later one by one more look:
//!
//! | The word says | and the thread | Then it |
//! |---|---|---|
//! | `Free` | takes one | has it, or looks again |
//! | `Taken`, and it has not yielded 40 times | yields, and takes one where others seek too | has it, or looks again |
//! | `Taken` still | lines up: it takes one where one is left by now, and sleeps otherwise | has it, or looks again |
//! | `Parked` | lines up | has it, or looks again |
ghost use Rattle.std.specs.Prelude.{◌≡◌, ◌<◌, ◌⊎◌, MatchBool, false};
ghost use Rattle.lot_park.specs.Parking.{Ends, Awaited, Queues};
ghost use Rattle.lot_seeking.specs.Seeking.{SeekingLaws};
ghost use Rattle.lot_seeking.specs.declared.seeking.Seeking.TheVariants.{Got, Waits, Parks};

use crate::spins::{Spins, TRIES_ALONE, pause};
use lot_park::{BeforeSleep, Parked, ParkingLot, Scheme, Token};
use std::sync::Wait;

/// What one look at a word tells of what is sought.
#[derive(Clone, Copy, PartialEq, Eq)]
pub enum Look {
    /// One is left.
    Free,
    /// None is left, and nobody is marked as parked.
    Taken,
    /// None is left, and somebody is marked as parked.
    Parked,
}

/// How far a thread is that seeks something.
#[derive(Clone, Copy)]
pub enum Seeking {
    /// It has got it.
    Got,
    /// It is awake, and has not got it.
    Waits,
    /// It is about to park.
    Parks,
}

/// What threads of a scheme seek, which T names, as the locks of its table or their permits: how its word is looked at,
/// taken and marked.
pub trait Sought<T>: Scheme {
    ghost use Rattle.std.specs.Prelude.{◌≡◌, ℕ, MatchBool, false};
    ghost use Rattle.lot_park.specs.Parking.{Awaited, Queues};
    ghost use Rattle.lot_seeking.specs.Seeking.{LinedUp};
    ghost use Rattle.lot_seeking.specs.declared.seeking.Seeking.{Seeking};
    ghost use Rattle.lot_seeking.specs.declared.seeking.Seeking.TheVariants.{Got, Waits, Parks};

    /// The table has what is sought under the key.
    ghost has: { Self → ℕ → Type 0 };

    /// A pass, the key of what its thread began to seek with it, how far the thread is, and the pass now.
    ghost seeks: { Self.Pass → ℕ → Seeking → Self.Pass → Type 0 };

    /// A pass, the key of what its thread seeks, and the pass now, which is queued in its line.
    ghost sleeps: { Self.Pass → ℕ → Self.Pass → Type 0 };

    /// A pass, the key of what its thread seeks, and the pass now, with which at last another word was found than was
    /// to be changed.
    ghost changed: { Self.Pass → ℕ → Self.Pass → Type 0 };

    /// A pass, the key of what its thread seeks, and the pass now, with which at last its word was marked as parked.
    ghost marked: { Self.Pass → ℕ → Self.Pass → Type 0 };

    /// A pass, the key of what its thread seeks, and the pass now, with which its thread looked once more, by which it
    /// was not queued.
    ghost refused: { Self.Pass → ℕ → Self.Pass → Type 0 };

    /// How often the pass's thread was woken, as far as the pass tells.
    ghost woken: { Self.Pass → ℕ } = { λ _. 0 };

    /// What one load of its word tells. It is an observation: nothing is promised of it.
    fn look_at(&self, key: usize) -> Look
        requires { has self.now key };

    /// Takes one where one is left, and says whether it did.
    fn take(&self, pass: Self::Pass, key: usize) -> (Self::Pass, bool)
        requires has { has self.now key }
        requires waits { seeks pass key Waits pass }
        ensures far { MatchBool result.1 (seeks pass key Got result.0) (seeks pass key Waits result.0) }
        ensures awake { woken result.0 ≡ woken pass };

    /// Takes one by a single exchange, with no look before, where the word of a free one can be guessed, at which
    /// nobody is marked as parked. It may miss one that is left. Without a body of its own it is `take`.
    fn take_free(&self, pass: Self::Pass, key: usize) -> (Self::Pass, bool)
        requires has { has self.now key }
        requires waits { seeks pass key Waits pass }
        ensures far { MatchBool result.1 (seeks pass key Got result.0) (seeks pass key Waits result.0) }
        ensures awake { woken result.0 ≡ woken pass }
    {
        self.take(pass, key)
    }

    /// What a thread does before it parks: it takes one where one is left by now, and else marks it as parked, unless
    /// it was seen so.
    fn line_up(&self, pass: Self::Pass, key: usize, is_marked: bool) -> (Self::Pass, Seeking)
        requires has { has self.now key }
        requires waits { seeks pass key Waits pass }
        ensures far { seeks pass key result.1 result.0 }
        ensures lined { LinedUp result.1 is_marked (changed pass key result.0) (marked pass key result.0) }
        ensures awake { woken result.0 ≡ woken pass };

    /// The validation of a parking: the thread is queued where still none is left and it is marked as parked.
    fn queue(
        &self,
        pass: Self::Pass,
        root: Self::Root,
        key: usize,
    ) -> (Self::Pass, Self::Root, bool)
        requires key { (Self.Root.view root).key ≡ key }
        requires parks { seeks pass (Self.Root.view root).key Parks pass }
        ensures pass { MatchBool result.2 (sleeps pass (Self.Root.view root).key result.0)
            (seeks pass (Self.Root.view root).key Parks result.0) }
        ensures root { Queues Self.Root.view Self.thread pass root result.2 result.0 result.1 }
        ensures refused { result.2 ≡ false → refused pass (Self.Root.view root).key result.0 }
        ensures awake { woken result.0 ≡ woken pass };

    /// Whether a thread that was woken with this token was handed what it seeks; else it seeks it still.
    fn is_handed(token: Token) -> bool
        ensures { (before asleep now : Self.Pass) (key : ℕ) → sleeps before key asleep
            → Awaited Self.looked asleep token.0 now
            → MatchBool result (seeks before key Got now) (seeks before key Parks now) };
}

/// Gets it, by a thread that has missed it and knows this of its word. Before each sleep it does what `before` says, so
/// where it was woken, that has run.
#[inline(always)]
pub fn get_or_park<S: Sought<T>, T, R: Wait, B: BeforeSleep>(
    rt: &R,
    parking: &ParkingLot<S>,
    pass: S::Pass,
    key: usize,
    first: Look,
    before: &B,
) -> S::Pass
    requires laws { SeekingLaws S.thread S.seeks }
    requires has { S.has parking.now.scheme key }
    requires key { key < parking.now.keys }
    requires thread { S.thread pass < parking.now.threads }
    requires waits { S.seeks pass key Waits pass }
    ensures got { S.seeks pass key Got result }
    ensures ran { (S.woken result ≡ S.woken pass) ⊎ B.ran before.now }
{
    let tries = match first {
        Look::Taken if !parking.has_seekers() => TRIES_ALONE,
        Look::Free | Look::Taken | Look::Parked => 0,
    };
    let (pass, has_got) = try_again::<S, T>(parking.scheme(), pass, key, tries);
    if has_got {
        pass
    } else {
        look_or_park::<S, T, R, B>(rt, parking, pass, key, first, before)
    }
}

/// Tries so often to take a free one, with pauses of the processor before each try.
fn try_again<S: Sought<T>, T>(scheme: &S, pass: S::Pass, key: usize, tries: u32) -> (S::Pass, bool)
    requires laws { SeekingLaws S.thread S.seeks }
    requires has { S.has scheme.now key }
    requires waits { S.seeks pass key Waits pass }
    ensures far { MatchBool result.1 (S.seeks pass key Got result.0) (S.seeks pass key Waits result.0) }
    ensures awake { S.woken result.0 ≡ S.woken pass }
{
    let mut pass = pass;
    for _ in 0..tries {
        pause();
        let (next, has_got) = scheme.take_free(pass, key);
        if has_got {
            return (next, true);
        }
        pass = next;
    }
    (pass, false)
}

/// Looks, yields and parks until it has got it. Where other threads of the lot seek something too, it yields before it
/// looks again, since a look takes the word's line of the cache from its owner.
#[inline(always)]
fn look_or_park<S: Sought<T>, T, R: Wait, B: BeforeSleep>(
    rt: &R,
    parking: &ParkingLot<S>,
    pass: S::Pass,
    key: usize,
    first: Look,
    before: &B,
) -> S::Pass
    requires laws { SeekingLaws S.thread S.seeks }
    requires has { S.has parking.now.scheme key }
    requires key { key < parking.now.keys }
    requires thread { S.thread pass < parking.now.threads }
    requires waits { S.seeks pass key Waits pass }
    ensures got { S.seeks pass key Got result }
    ensures ran { (S.woken result ≡ S.woken pass) ⊎ B.ran before.now }
{
    let scheme = parking.scheme();
    let mut pass = pass;
    let mut look = first;
    let mut spins = Spins::among(parking.begin_seeking());
    for _ in rt.forever() {
        let (next, has_got) = match look {
            Look::Free => scheme.take(pass, key),
            Look::Taken if spins.has_more() => {
                take_after_yields::<S, T>(scheme, pass, key, &mut spins)
            }
            Look::Taken => sleep_in_line::<S, T, R, B>(rt, parking, pass, key, false, before),
            Look::Parked => sleep_in_line::<S, T, R, B>(rt, parking, pass, key, true, before),
        };
        pass = next;
        if has_got {
            parking.end_seeking();
            return pass;
        }
        look = scheme.look_at(key);
    }
    unreachable!()
}

/// Yields until it is time to look again. Where others seek too, it takes a free one then, without a look before: after
/// a look that finds it free, whoever had it mostly gets it again first.
fn take_after_yields<S: Sought<T>, T>(
    scheme: &S,
    pass: S::Pass,
    key: usize,
    spins: &mut Spins,
) -> (S::Pass, bool)
    requires has { S.has scheme.now key }
    requires waits { S.seeks pass key Waits pass }
    ensures far { MatchBool result.1 (S.seeks pass key Got result.0) (S.seeks pass key Waits result.0) }
    ensures awake { S.woken result.0 ≡ S.woken pass }
{
    spins.back_off();
    if spins.is_alone() {
        (pass, false)
    } else {
        scheme.take_free(pass, key)
    }
}

/// Lines up, and sleeps until it is woken. Says whether it has got it.
fn sleep_in_line<S: Sought<T>, T, R: Wait, B: BeforeSleep>(
    rt: &R,
    parking: &ParkingLot<S>,
    pass: S::Pass,
    key: usize,
    is_marked: bool,
    before: &B,
) -> (S::Pass, bool)
    requires laws { SeekingLaws S.thread S.seeks }
    requires has { S.has parking.now.scheme key }
    requires key { key < parking.now.keys }
    requires thread { S.thread pass < parking.now.threads }
    requires waits { S.seeks pass key Waits pass }
    ensures far { MatchBool result.1 (S.seeks pass key Got result.0) (S.seeks pass key Waits result.0) }
    ensures ran { (S.woken result.0 ≡ S.woken pass) ⊎ B.ran before.now }
{
    let (pass, seeking) = parking.scheme().line_up(pass, key, is_marked);
    match seeking {
        Seeking::Got => (pass, true),
        Seeking::Waits => (pass, false),
        Seeking::Parks => sleep::<S, T, R, B>(rt, parking, pass, key, before),
    }
}

/// Parks, and says whether it was handed what it seeks.
fn sleep<S: Sought<T>, T, R: Wait, B: BeforeSleep>(
    rt: &R,
    parking: &ParkingLot<S>,
    pass: S::Pass,
    key: usize,
    before: &B,
) -> (S::Pass, bool)
    requires laws { SeekingLaws S.thread S.seeks }
    requires key { key < parking.now.keys }
    requires thread { S.thread pass < parking.now.threads }
    requires parks { S.seeks pass key Parks pass }
    ensures far { MatchBool result.1 (S.seeks pass key Got result.0) (S.seeks pass key Waits result.0) }
    ensures ran { (S.woken result.0 ≡ S.woken pass) ⊎ B.ran before.now }
{
    let (pass, parked) = park::<S, T, R, B>(rt, parking, pass, key, before);
    match parked {
        Parked::Woken(token) if S::is_handed(token) => (pass, true),
        Parked::Invalid | Parked::Woken(_) => (pass, false),
    }
}

/// Parks with the validation of what is sought: where it is free again, or not marked as parked, the thread is as it
/// was, but for the look that told so. Where the thread was woken, `before` has run.
pub fn park<S: Sought<T>, T, R: Wait, B: BeforeSleep>(
    rt: &R,
    parking: &ParkingLot<S>,
    pass: S::Pass,
    key: usize,
    before: &B,
) -> (S::Pass, Parked)
    requires key { key < parking.now.keys }
    requires thread { S.thread pass < parking.now.threads }
    requires parks { S.seeks pass key Parks pass }
    ensures ends { Ends result.1 (S.seeks pass key Parks result.0) (λ token. (asleep : S.Pass) × S.sleeps pass key asleep
        × Awaited S.looked asleep token result.0) }
    ensures refused { result.1 ≡ Parked.Invalid → S.refused pass key result.0 }
    ensures ran { Ends result.1 (S.woken result.0 ≡ S.woken pass) (λ token. B.ran before.now) }
{
    let scheme = parking.scheme();
    let (pass, (), parked) = parking.park_conditionally(
        rt,
        pass,
        key,
        (),
        |x: (), pass: S::Pass, root: S::Root| -> ((), S::Pass, S::Root, bool)
            requires key { (S.Root.view root).key ≡ key }
            requires parks { S.seeks pass (S.Root.view root).key Parks pass }
            ensures pass { MatchBool result.3 (S.sleeps pass (S.Root.view root).key result.1)
                (S.seeks pass (S.Root.view root).key Parks result.1) }
            ensures root { Queues S.Root.view S.thread pass root result.3 result.1 result.2 }
            ensures refused { result.3 ≡ false → S.refused pass (S.Root.view root).key result.1 }
            ensures awake { S.woken result.1 ≡ S.woken pass }
        {
            let (pass, root, queued) = scheme.queue(pass, root, key);
            (x, pass, root, queued)
        },
        |x: ()| -> ()
            ensures { B.ran before.entry.now }
        {
            before.run();
            x
        },
    );
    (pass, parked)
}
