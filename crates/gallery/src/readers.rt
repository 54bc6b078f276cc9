//! A reader-writer lock: whoever writes is alone.
ghost use Rattle.std.specs.Prelude.{◌≡◌, ◌+◌, ◌<◌, ◌≤◌, length};
ghost use Rattle.lot_sync.specs.Lot.{OwnsNone};
ghost use Rattle.lot_sync.specs.Opened.{IsNamed};
ghost use Rattle.gallery.specs.Rooms.{IsFair, Takes, GivesBack, Reads, Writes, IsGuest};

use crate::crew::{NOW, end, open};
use lot_calls::{start_with_passes, work_together};
use lot_command::Failure;
use lot_regions::{Ready, change, when};
use lot_sync::{Lot, LotName, Opened, Pass};
use lot_words::Keeps;
use std::alloc::Global;
use std::marker::Brand;
use std::sync::Wait;
use std::sync::atomic::{AtomicU64, Ordering};
use std::thread::Threads;

const THREADS: usize = 4;

/// How many shares there are: who has one reads, and who has all writes.
const ALL: u64 = 4;

/// The lock of the room.
const ROOM: usize = 0;

/// Its conditions: a share is left, and all are.
const MAY_READ: usize = 1;

const MAY_WRITE: usize = 2;

/// How many shares each thread has, and how many are taken.
#[derive(Clone, Copy, Drop)]
pub struct Room {
    shares: [u64; THREADS],
    taken: u64,
}

impl Keeps for Room {
    ghost use Rattle.gallery.specs.Rooms.{IsFair, share_of};

    type Part = u64;

    ghost keeps = { λ key room. IsFair room };

    ghost part = { share_of };

    ghost grows_itself = { λ room. tt };

    ghost grows_on = { λ x y z p q. tt };
}

impl Ready for Room {
    ghost use Rattle.lot_regions.specs.Conds.{first_cond, behind_cond};
    ghost use Rattle.lot_regions.proofs.Conds.{conds_apart};
    ghost use Rattle.std.specs.Prelude.{nat_lt};
    ghost use Rattle.gallery.specs.Rooms.{limit_of};

    ghost first = { first_cond 1 2 };

    ghost behind = { behind_cond 1 2 };

    ghost ready = { λ cond room. nat_lt room.taken (limit_of cond) };

    fn first_of(key: usize) -> usize {
        MAY_READ + 2 * key
    }

    fn behind_of(key: usize) -> usize {
        MAY_READ + 2 * key + 2
    }

    fn is_ready(&self, cond: usize) -> bool {
        self.taken < if cond == MAY_READ { ALL } else { 1 }
    }

    ghost apart = { conds_apart 1 2 };
}

impl Room {
    /// The thread takes so many shares more.
    fn take(&mut self, thread: usize, shares: u64)
        requires thread { thread < THREADS }
        requires fair { IsFair self.old }
        requires left { self.old.taken + shares ≤ ALL }
        ensures { Takes thread shares self.old self.new }
    {
        self.shares[thread] += shares;
        self.taken += shares;
    }

    /// The thread gives all its shares back.
    fn give_back(&mut self, thread: usize)
        requires thread { thread < THREADS }
        requires fair { IsFair self.old }
        ensures { GivesBack thread self.old self.new }
    {
        self.taken -= self.shares[thread];
        self.shares[thread] = 0;
    }
}

/// What the lock guards: two numbers that a writer leaves alike; and how often a reader found them so.
type Text = [AtomicU64; 3];

fn read([first, second, alike]: &Text) {
    if first.load(Ordering::SeqCst) == second.load(Ordering::SeqCst) {
        alike.fetch_add(1, Ordering::SeqCst);
    }
}

fn write([first, second, _]: &Text) {
    first.fetch_add(1, Ordering::SeqCst);
    second.fetch_add(1, Ordering::SeqCst);
}

/// The right of a thread that comes to the room.
type User<N> = Pass<Room, N>;

/// A reader-writer lock: a lot with one room, as its threads see it.
#[derive(Drop)]
pub struct Door<'a, N: LotName<Room> + Send> {
    lot: &'a Lot<Room, N>,
    ghost sizes: { (lot.now.locks ≡ 1) × (lot.now.conds ≡ 2) },
}

impl<N: LotName<Room> + Send> Door<'_, N> {
    /// The thread reads from now on: it waits while somebody writes.
    pub fn begin_reading<T: Wait>(&self, rt: &T, pass: User<N>) -> User<N>
        requires guest { IsGuest pass }
        ensures { IsGuest result × Reads result }
    {
        let thread = pass.thread();
        let begin = |room: &mut Room| room.take(thread, 1);
        when(rt, self.lot, pass, ROOM, MAY_READ, NOW, begin).0
    }

    /// The thread writes from now on: it waits while somebody reads or writes.
    pub fn begin_writing<T: Wait>(&self, rt: &T, pass: User<N>) -> User<N>
        requires guest { IsGuest pass }
        ensures { IsGuest result × Writes result }
    {
        let thread = pass.thread();
        let begin = |room: &mut Room| room.take(thread, ALL);
        when(rt, self.lot, pass, ROOM, MAY_WRITE, NOW, begin).0
    }

    /// The thread neither reads nor writes any more.
    pub fn end<T: Wait>(&self, rt: &T, pass: User<N>) -> User<N>
        requires guest { IsGuest pass }
        ensures { IsGuest result × (¬ Reads result) × ¬ Writes result }
    {
        let thread = pass.thread();
        let end = |room: &mut Room| room.give_back(thread);
        change(rt, self.lot, pass, ROOM, NOW, end).0
    }

    /// One thread, with all its rounds: it reads where its number is even, and else writes.
    fn work<T: Wait>(&self, rt: &T, text: &Text, pass: User<N>) -> User<N>
        requires guest { IsGuest pass }
        ensures { IsGuest result }
    {
        let mut pass = pass;
        for _ in 0..100u64 {
            if pass.thread() % 2 == 0 {
                pass = self.begin_reading(rt, pass);
                read(text);
            } else {
                pass = self.begin_writing(rt, pass);
                write(text);
            }
            pass = self.end(rt, pass);
        }
        pass
    }
}

/// Shows that whoever writes is alone: no other reads or writes at the same time.
pub fn check_alone<N: LotName<Room> + Send>(
    lot: &Lot<Room, N>,
    writer: User<N>,
    other: User<N>,
) -> (User<N>, User<N>)
    requires lock { ROOM < lot.now.locks }
    requires free { OwnsNone writer × OwnsNone other }
    requires writes { Writes writer }
    ensures same { (result.0 ≡ writer) × (result.1 ≡ other) }
    ensures alone { (¬ Reads other) × ¬ Writes other }
{
    lot.check_parts(writer, other, ROOM)
}

/// Two threads read, and two write. Answers how often a reader found both numbers alike.
pub fn run<T: Threads + Wait + Sync>(rt: &T, alloc: Global) -> Result<u64, Failure> {
    let shares = [0; THREADS];
    let values = vec![in alloc; Room { shares, taken: 0 }; 1]?;
    let opened = open(alloc, THREADS, values, 2, &[])?;
    run_on::<Brand, T>(rt, alloc, opened)
}

fn run_on<N: LotName<Room> + Send + Sync, T: Threads + Wait + Sync>(
    rt: &T,
    alloc: Global,
    opened: Opened<Room>,
) -> Result<u64, Failure>
    requires named { IsNamed N.LotName opened }
    requires sizes { (opened.threads ≡ THREADS) × (length opened.values ≡ 1) × (opened.conds ≡ 2) }
{
    let Ok((lot, passes)) = start_with_passes::<Room, N, T>(rt, alloc, THREADS, opened) else {
        return Err(Failure::NoMemory);
    };
    let door = Door { lot: &lot };
    let text = [AtomicU64::new(0), AtomicU64::new(0), AtomicU64::new(0)];
    let come = |pass: User<N>| -> User<N>
        requires { IsGuest pass }
        ensures { IsGuest result }
    { door.work(rt, &text, pass) };
    let (passes, worked) = work_together(rt, &come, passes);
    end(rt, lot, passes, worked)?;
    Ok(text[2].load(Ordering::SeqCst))
}
