//! Dinner: five philosophers at a round table, with a fork between any two. Each eats with the two forks beside their
//! seat and gets the lower first, so no circle of them waits.
ghost use Rattle.std.specs.Prelude.{◌≡◌, ◌<◌, ◌≤◌, ℕ, List, Option, length, vec_len, vec_capacity};
ghost use Rattle.atomic_table.specs.Table.{State};
ghost use Rattle.lot_order.specs.Order.{Rises};
ghost use Rattle.lot_order.specs.Waiting.{HasNoCircle, SomeoneGoesOn};
ghost use Rattle.lot_rights.specs.declared.views.Right.{Right};
ghost use Rattle.lot_rights.specs.Rule.{Ruled};
ghost use Rattle.lot_whole.specs.declared.views.LotPassView.{LotPassView};
ghost use Rattle.lot_whole.specs.declared.views.LotRootView.{LotRootView};
ghost use Rattle.lot_whole.specs.Family.{LotSize};
ghost use Rattle.lot_whole.specs.Lot.{lot_meaning};
ghost use Rattle.lot_whole.specs.Headline.{OneState};
ghost use Rattle.lot_sync.specs.Lot.{OwnsNone};
ghost use Rattle.lot_sync.specs.Opened.{IsNamed};
ghost use Rattle.gallery.specs.Dinner.{low_of, high_of, HasPlaces, OneMore, AteWithBoth, AllAteWithBoth, IsAtTable};

use crate::crew::{NOW, open};
use lot_calls::{finish, leave_all, start_with_passes, work_together};
use lot_command::Failure;
use lot_sync::{Lot, LotName, Opened, Pass};
use lot_whole::laws::one_state_at_every_moment;
use lot_words::Keeps;
use std::alloc::Global;
use std::marker::Brand;
use std::sync::Wait;
use std::thread::Threads;

const SEATS: usize = 5;

const MEALS: usize = 100;

/// How often each philosopher ate with this fork.
#[derive(Clone, Copy, Drop)]
pub struct Fork {
    meals: [u64; SEATS],
}

impl Keeps for Fork {
    ghost use Rattle.std.specs.Prelude.{◌<◌};
    ghost use Rattle.gallery.specs.Dinner.{HasPlaces, AteWithBoth, meals_of};

    type Part = u64;

    ghost keeps = { λ key fork. HasPlaces fork };

    ghost part = { meals_of };

    ghost rests = { λ rested. AteWithBoth rested.thread rested.seen };

    ghost above = { λ j k. j < k };

    ghost grows_itself = { λ fork. tt };

    ghost grows_on = { λ x y z p q. tt };
}

/// Where keys rise by some level, as forks do: at each moment no threads wait for one another in a circle, and while
/// one needs a key some thread goes on.
pub fn no_circle_waits<V: Keeps>()
    requires rises { (level : ℕ → ℕ) × Rises V.above level }
    ensures { (z : LotSize) (values : List V) (s : State (Option V) (List (Right (LotPassView V) LotRootView)))
        (here : Ruled (lot_meaning V.Keeps z values) s) → (one : OneState V.Keeps z values s here)
        × HasNoCircle one.state × SomeoneGoesOn V.above one.state }
{
    one_state_at_every_moment::<V>();
}

/// The lower and the higher of the two forks beside a seat.
fn forks_of(seat: usize) -> (usize, usize)
    requires seat { seat < SEATS }
    ensures forks { result ≡ (low_of seat, high_of seat) }
    ensures rises { (result.0 < result.1) × (result.1 < SEATS) }
{
    if seat + 1 < SEATS {
        (seat, seat + 1)
    } else {
        (0, seat)
    }
}

/// Counts one meal more with this fork.
fn count(seat: usize, fork: &mut Fork)
    requires seat { seat < SEATS }
    requires places { HasPlaces fork.old }
    ensures { OneMore seat fork.old fork.new }
{
    fork.meals[seat] = fork.meals[seat].wrapping_add(1);
}

/// Eats once, with both forks.
pub fn eat<N: LotName<Fork> + Send, T: Wait>(
    rt: &T,
    lot: &Lot<Fork, N>,
    pass: Pass<Fork, N>,
) -> Pass<Fork, N>
    requires forks { lot.now.locks ≡ SEATS }
    requires seat { pass.thread < SEATS }
    requires free { OwnsNone pass }
    requires even { AteWithBoth pass.thread pass.seen }
    ensures back { (result.thread ≡ pass.thread) × OwnsNone result }
    ensures even { AteWithBoth result.thread result.seen }
{
    let seat = pass.thread();
    let (low, high) = forks_of(seat);
    let (pass, mut one) = lot.lock(rt, pass, low);
    let (pass, mut two) = lot.lock(rt, pass, high);
    count(seat, one.value_mut());
    count(seat, two.value_mut());
    let (pass, _) = lot.unlock(rt, pass, two, NOW);
    let (pass, _) = lot.unlock(rt, pass, one, NOW);
    pass
}

/// Ends the dinner: of each philosopher both forks count equally many meals.
pub fn end<N: LotName<Fork> + Send, T: Wait>(
    rt: &T,
    lot: Lot<Fork, N>,
    passes: Vec<Pass<Fork, N>>,
) -> Vec<Fork>
    requires sizes { (lot.locks ≡ SEATS) × (lot.threads ≡ SEATS) }
    requires room { (vec_len passes ≡ 0) × (lot.threads ≤ vec_capacity passes) }
    ensures { AllAteWithBoth result.items }
{
    finish(rt, lot, passes).0
}

/// Five philosophers eat.
pub fn run<T: Threads + Wait + Sync>(rt: &T, alloc: Global) -> Result<u64, Failure> {
    no_circle_waits::<Fork>();
    let forks = vec![in alloc; Fork { meals: [0; SEATS] }; SEATS]?;
    let opened = open(alloc, SEATS, forks, 0, &[])?;
    run_on::<Brand, T>(rt, alloc, opened)
}

fn run_on<N: LotName<Fork> + Send + Sync, T: Threads + Wait + Sync>(
    rt: &T,
    alloc: Global,
    opened: Opened<Fork>,
) -> Result<u64, Failure>
    requires named { IsNamed N.LotName opened }
    requires sizes { (opened.threads ≡ SEATS) × (length opened.values ≡ SEATS) }
    requires even { AllAteWithBoth opened.values }
{
    let Ok((lot, passes)) = start_with_passes::<Fork, N, T>(rt, alloc, SEATS, opened) else {
        return Err(Failure::NoMemory);
    };
    let dine_all = |pass: Pass<Fork, N>| -> Pass<Fork, N>
        requires { IsAtTable lot pass }
        ensures { IsAtTable lot result }
    { dine(rt, &lot, pass) };
    let (passes, worked) = work_together(rt, &dine_all, passes);
    let room = leave_all(rt, &lot, passes);
    let forks = end(rt, lot, room);
    if !worked {
        return Err(Failure::CannotStartWorker);
    }
    Ok(meals_in(&forks))
}

/// How many meals these forks count, with two for each, modulo 2^64.
fn meals_in(forks: &[Fork]) -> u64 {
    let mut meals = 0u64;
    for fork in forks {
        for number in fork.meals.iter() {
            meals = meals.wrapping_add(*number);
        }
    }
    meals / 2
}

/// One philosopher, with all meals.
fn dine<N: LotName<Fork> + Send, T: Wait>(
    rt: &T,
    lot: &Lot<Fork, N>,
    pass: Pass<Fork, N>,
) -> Pass<Fork, N>
    requires at_table { IsAtTable lot.now pass }
    ensures { IsAtTable lot.now result }
{
    let mut pass = pass;
    for _ in 0..MEALS {
        pass = eat(rt, lot, pass);
    }
    pass
}
