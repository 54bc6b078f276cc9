//! Latches for rounds: nobody passes before all came.
ghost use Rattle.std.specs.Prelude.{◌≡◌, ◌≤◌, ◌<◌, length};
ghost use Rattle.lot_sync.specs.Lot.{OwnsNone, HasSeen};
ghost use Rattle.lot_sync.specs.Opened.{IsNamed};
ghost use Rattle.gallery.specs.Meetings.{IsWithin, GoesOn, Arrives, SawAll};
ghost use Rattle.gallery.specs.declared.latch.TheConstants.{ROUNDS};

use crate::crew::{NOW, end, open};
use lot_calls::{start_with_passes, work_together};
use lot_command::Failure;
use lot_regions::{Ready, change, when};
use lot_sync::{Lot, LotName, Opened, Pass};
use lot_words::Keeps;
use std::alloc::Global;
use std::marker::Brand;
use std::sync::Wait;
use std::thread::Threads;

/// How many rounds there are: the meeting of each lies under the lock of its number, with one condition, that all came.
const ROUNDS: usize = 3;

const GUESTS: usize = 4;

/// How many are to come, and how many came.
#[derive(Clone, Copy, Drop)]
pub struct Meeting {
    size: u64,
    came: u64,
}

impl Keeps for Meeting {
    ghost use Rattle.gallery.specs.Meetings.{IsWithin, GoesOn, goes_nowhere, goes_further};

    type Part = ();

    ghost keeps = { λ key meeting. IsWithin meeting };

    ghost grows = { GoesOn };

    ghost part = { λ thread meeting. tt };

    ghost grows_itself = { goes_nowhere };

    ghost grows_on = { goes_further };
}

impl Ready for Meeting {
    ghost use Rattle.lot_regions.specs.Conds.{first_cond, behind_cond};
    ghost use Rattle.lot_regions.proofs.Conds.{conds_apart};
    ghost use Rattle.gallery.specs.Meetings.{have_all_come};

    ghost first = { first_cond ROUNDS 1 };

    ghost behind = { behind_cond ROUNDS 1 };

    ghost ready = { λ cond meeting. have_all_come meeting };

    fn first_of(key: usize) -> usize {
        ROUNDS + key
    }

    fn behind_of(key: usize) -> usize {
        ROUNDS + key + 1
    }

    fn is_ready(&self, cond: usize) -> bool {
        self.came >= self.size
    }

    ghost apart = { conds_apart ROUNDS 1 };
}

impl Meeting {
    /// One more came, and it is answered whether: where all had come nothing changes.
    fn arrive(&mut self) -> bool
        requires { IsWithin self.old }
        ensures kept { IsWithin self.new }
        ensures grown { GoesOn self.old self.new }
        ensures arrives { Arrives self.old result self.new }
    {
        if self.came >= self.size {
            return false;
        }
        self.came += 1;
        true
    }
}

/// The right of a thread that comes to the meetings.
type Guest<N> = Pass<Meeting, N>;

/// A lot with a meeting for each round, as its threads see it.
#[derive(Drop)]
pub struct Place<'a, N: LotName<Meeting> + Send> {
    lot: &'a Lot<Meeting, N>,
    ghost sizes: { (lot.now.locks ≡ ROUNDS) × (lot.now.conds ≡ ROUNDS) },
}

impl<N: LotName<Meeting> + Send> Place<'_, N> {
    /// A thread counts itself in, where not all have come, and does not wait. It answers whether it did.
    pub fn arrive<T: Wait>(&self, rt: &T, pass: Guest<N>, round: usize) -> (Guest<N>, bool)
        requires round { round < ROUNDS }
        requires free { OwnsNone pass }
        ensures free { OwnsNone result.0 }
        ensures arrives { (before : Meeting) × (after : Meeting) × Arrives before result.1 after
            × HasSeen result.0 round after }
    {
        change(rt, self.lot, pass, round, NOW, Meeting::arrive)
    }

    /// A thread waits until all came.
    pub fn wait<T: Wait>(&self, rt: &T, pass: Guest<N>, round: usize) -> Guest<N>
        requires round { round < ROUNDS }
        requires free { OwnsNone pass }
        ensures free { OwnsNone result }
        ensures all_came { SawAll result round (λ meeting. (u : Meeting) → HasSeen pass round u → GoesOn u meeting) }
    {
        let look = |_: &mut Meeting| {};
        when(rt, self.lot, pass, round, ROUNDS + round, NOW, look).0
    }

    /// The barrier: a thread counts itself in, and passes when all of its round came.
    pub fn meet<T: Wait>(&self, rt: &T, pass: Guest<N>, round: usize) -> (Guest<N>, bool)
        requires round { round < ROUNDS }
        requires free { OwnsNone pass }
        ensures free { OwnsNone result.0 }
        ensures all_came { (before : Meeting) × (after : Meeting) × Arrives before result.1 after
            × SawAll result.0 round (GoesOn after) }
    {
        let (pass, counted) = self.arrive(rt, pass, round);
        (self.wait(rt, pass, round), counted)
    }

    /// One thread, with all its rounds.
    fn work<T: Wait>(&self, rt: &T, pass: Guest<N>) -> Guest<N>
        requires free { OwnsNone pass }
        ensures { OwnsNone result }
    {
        let mut pass = pass;
        for round in 0..ROUNDS {
            pass = self.meet(rt, pass, round).0;
        }
        pass
    }
}

/// Threads meet some times. Answers how many came.
pub fn run<T: Threads + Wait + Sync>(rt: &T, alloc: Global) -> Result<u64, Failure> {
    let values = vec![in alloc; Meeting {
        size: GUESTS as u64,
        came: 0
    }; ROUNDS]?;
    let opened = open(alloc, GUESTS, values, ROUNDS, &[])?;
    run_on::<Brand, T>(rt, alloc, opened)
}

fn run_on<N: LotName<Meeting> + Send + Sync, T: Threads + Wait + Sync>(
    rt: &T,
    alloc: Global,
    opened: Opened<Meeting>,
) -> Result<u64, Failure>
    requires named { IsNamed N.LotName opened }
    requires sizes { (opened.threads ≡ GUESTS) × (length opened.values ≡ ROUNDS) × (opened.conds ≡ ROUNDS) }
{
    let Ok((lot, passes)) = start_with_passes::<Meeting, N, T>(rt, alloc, GUESTS, opened) else {
        return Err(Failure::NoMemory);
    };
    let place = Place { lot: &lot };
    let meet_all = |pass: Guest<N>| -> Guest<N>
        requires { OwnsNone pass }
        ensures { OwnsNone result }
    { place.work(rt, pass) };
    let (passes, worked) = work_together(rt, &meet_all, passes);
    let values = end(rt, lot, passes, worked)?;
    let add = |sum: u64, meeting: &Meeting| sum.wrapping_add(meeting.came);
    Ok(values.iter().fold(0u64, add))
}
