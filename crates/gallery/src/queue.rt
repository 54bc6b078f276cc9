//! A bounded queue: what comes out went in, each once, in order.
ghost use Rattle.std.specs.Prelude.{◌≡◌, ◌+◌, ◌^◌, ◌<◌, [], ◌∷◌, ◌++◌, length};
ghost use Rattle.std.specs.VecDeque.{deque_len, deque_capacity};
ghost use Rattle.lot_sync.specs.Lot.{OwnsNone, HasSeen};
ghost use Rattle.lot_sync.specs.Opened.{IsNamed};
ghost use Rattle.gallery.specs.Lines.{LiesOn, Follows, has_room_for};

use crate::crew::{NOW, end, open};
use lot_calls::{start_with_passes, work_together};
use lot_command::Failure;
use lot_regions::{Ready, when};
use lot_sync::{Lot, LotName, Opened, Pass};
use lot_words::Keeps;
use std::alloc::Global;
use std::collections::VecDeque;
use std::marker::Brand;
use std::sync::Wait;
use std::thread::Threads;

/// The lock of the line.
const LINE: usize = 0;

/// The conditions of a line: there is room, and there is an item.
const NOT_FULL: usize = 1;

const NOT_EMPTY: usize = 2;

const THREADS: usize = 4;

/// The items that lie in the queue, the oldest first, and how many were taken before them. An item's number is how
/// many were put before it.
#[derive(Drop)]
pub struct Line<T: Drop> {
    items: VecDeque<T>,
    taken: u64,
}

impl<T: Drop> Keeps for Line<T> {
    ghost use Rattle.gallery.specs.Lines.{LiesOn, lies_on_itself, lies_on_twice};

    type Part = ();

    ghost keeps = { λ key line. line.taken + length line.items.items < 2 ^ 64 };

    ghost grows = { λ old new. LiesOn old.taken old.items.items new.taken new.items.items };

    ghost part = { λ thread line. tt };

    ghost grows_itself = { λ line. lies_on_itself line.taken line.items.items };

    ghost grows_on = { λ x y z a b. lies_on_twice x.taken y.taken z.taken x.items.items
        y.items.items z.items.items a b };
}

impl<T: Drop> Ready for Line<T> {
    ghost use Rattle.lot_regions.specs.Conds.{first_cond, behind_cond};
    ghost use Rattle.lot_regions.proofs.Conds.{conds_apart};
    ghost use Rattle.gallery.specs.Lines.{is_ready_for};

    ghost first = { first_cond 1 2 };

    ghost behind = { behind_cond 1 2 };

    ghost ready = { λ cond line. is_ready_for cond (deque_len line.items) (deque_capacity line.items)
        (line.taken + length line.items.items) };

    fn first_of(key: usize) -> usize {
        NOT_FULL + 2 * key
    }

    fn behind_of(key: usize) -> usize {
        NOT_FULL + 2 * key + 2
    }

    fn is_ready(&self, cond: usize) -> bool {
        if cond == NOT_FULL {
            self.has_room()
        } else {
            !self.items.is_empty()
        }
    }

    ghost apart = { conds_apart 1 2 };
}

impl<T: Drop> Line<T> {
    /// Whether there is a place and a number for one more.
    fn has_room(&self) -> bool
        ensures { result ≡ has_room_for (deque_len self.now.items) (deque_capacity self.now.items)
            (self.now.taken + length self.now.items.items) }
    {
        self.items.len() < self.items.capacity() && self.taken < u64::MAX - self.items.len() as u64
    }

    /// Puts the item behind all that lie there, and answers its number.
    #[tactic(auto, using(crate::specs::Lines::lies_before))]
    fn put(&mut self, item: T) -> u64
        requires { (deque_len self.old.items < deque_capacity self.old.items)
            × (self.old.taken + length self.old.items.items + 1 < 2 ^ 64) }
        ensures follows { Follows self.old.taken self.old.items.items self.new.taken self.new.items.items }
        ensures puts { (result ≡ self.old.taken + length self.old.items.items) × (self.new.taken ≡ self.old.taken)
            × (self.new.items.items ≡ self.old.items.items ++ item ∷ []) }
    {
        let number = self.taken + self.items.len() as u64;
        self.items.push_back_reserved(item);
        number
    }

    /// Takes the oldest item, and answers its number with it.
    #[tactic(auto, using(crate::specs::Lines::lies_behind))]
    fn take(&mut self) -> (u64, T)
        requires { (0 < length self.old.items.items) × (self.old.taken + length self.old.items.items < 2 ^ 64) }
        ensures follows { Follows self.old.taken self.old.items.items self.new.taken self.new.items.items }
        ensures takes { (result.0 ≡ self.old.taken) × (self.new.taken ≡ self.old.taken + 1)
            × (self.old.items.items ≡ result.1 ∷ self.new.items.items) }
    {
        let number = self.taken;
        let item = self.items.pop_front().unwrap();
        self.taken += 1;
        (number, item)
    }
}

/// The right of a thread that uses the queue.
type User<T, N> = Pass<Line<T>, N>;

/// A bounded queue: a lot with one line, as its threads see it.
#[derive(Drop)]
pub struct Queue<'a, T: Drop + Send, N: LotName<Line<T>> + Send> {
    lot: &'a Lot<Line<T>, N>,
    ghost sizes: { (lot.now.locks ≡ 1) × (lot.now.conds ≡ 2) },
}

impl<T: Drop + Send, N: LotName<Line<T>> + Send> Queue<'_, T, N> {
    /// Puts the item into the queue when there is a place, and answers its number, under which the pass has seen it.
    pub fn push<W: Wait>(&self, rt: &W, pass: User<T, N>, item: T) -> (User<T, N>, u64)
        requires free { OwnsNone pass }
        ensures free { OwnsNone result.0 }
        ensures puts { (before : Line T) × (after : Line T) × (result.1 ≡ before.taken + length before.items.items)
            × (after.taken ≡ before.taken) × (after.items.items ≡ before.items.items ++ item ∷ [])
            × HasSeen result.0 LINE after }
    {
        let put = |line: &mut Line<T>| line.put(item);
        when(rt, self.lot, pass, LINE, NOT_FULL, NOW, put)
    }

    /// Takes the oldest item when there is one, and answers its number with it. What the pass has seen lies still, or
    /// was taken before.
    pub fn pop<W: Wait>(&self, rt: &W, pass: User<T, N>) -> (User<T, N>, (u64, T))
        requires free { OwnsNone pass }
        ensures free { OwnsNone result.0 }
        ensures takes { (before : Line T) × (after : Line T)
            × ((seen : Line T) → HasSeen pass LINE seen
            → LiesOn seen.taken seen.items.items before.taken before.items.items) × (result.1.0 ≡ before.taken)
            × (after.taken ≡ before.taken + 1) × (before.items.items ≡ result.1.1 ∷ after.items.items)
            × HasSeen result.0 LINE after }
    {
        when(rt, self.lot, pass, LINE, NOT_EMPTY, NOW, Line::take)
    }
}

/// One thread: it puts numbers where its own is even, and else takes as many.
fn work<N: LotName<Line<u64>> + Send, T: Wait>(
    rt: &T,
    queue: &Queue<u64, N>,
    pass: User<u64, N>,
) -> User<u64, N>
    requires free { OwnsNone pass }
    ensures { OwnsNone result }
{
    let mut pass = pass;
    for round in 0..100u64 {
        pass = if pass.thread() % 2 == 0 {
            queue.push(rt, pass, round).0
        } else {
            queue.pop(rt, pass).0
        };
    }
    pass
}

/// Two threads put numbers, and two take as many. Answers how many were taken.
pub fn run<T: Threads + Wait + Sync>(rt: &T, alloc: Global) -> Result<u64, Failure> {
    let items = VecDeque::with_capacity(alloc, 4)?;
    let mut values = Vec::with_capacity(alloc, 1)?;
    values.push_reserved(Line { items, taken: 0 });
    let opened = open(alloc, THREADS, values, 2, &[])?;
    run_on::<Brand, T>(rt, alloc, opened)
}

fn run_on<N: LotName<Line<u64>> + Send + Sync, T: Threads + Wait + Sync>(
    rt: &T,
    alloc: Global,
    opened: Opened<Line<u64>>,
) -> Result<u64, Failure>
    requires named { IsNamed N.LotName opened }
    requires sizes { (opened.threads ≡ THREADS) × (length opened.values ≡ 1) × (opened.conds ≡ 2) }
{
    let Ok((lot, passes)) = start_with_passes::<Line<u64>, N, T>(rt, alloc, THREADS, opened) else {
        return Err(Failure::NoMemory);
    };
    let queue = Queue { lot: &lot };
    let use_all = |pass: User<u64, N>| -> User<u64, N>
        requires { OwnsNone pass }
        ensures { OwnsNone result }
    { work(rt, &queue, pass) };
    let (passes, worked) = work_together(rt, &use_all, passes);
    let values = end(rt, lot, passes, worked)?;
    Ok(values[LINE].taken)
}
