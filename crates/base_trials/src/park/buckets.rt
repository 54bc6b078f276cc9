//! One queue with mixed keys, and its roots.
ghost use Rattle.std.specs.Prelude.{◌≡◌, []};
ghost use Rattle.lot_bucket.specs.Queue.{without_key};

use crate::asserts::{equal, equal_in, is_so, is_so_in};
use lot_bucket::{Bucket, Dequeued, Moment, Root};
use std::process::Abort;
use std::test::Fail;

// A root that knows its key alone.
#[derive(Drop)]
struct BareRoot {
    key: usize,
}

impl Root for BareRoot {
    ghost view = { λ r. record { key = r.key; line = []; owes = [] } };
}

const ROOM: usize = 4;

const LAST: u64 = u64::MAX;

// Which threads are queued, each with its key. Then one of a key is taken, at a moment with a word: who, whether more
// may wait, and whether it is fair. Last the next fair moment.
type Step = (
    &'static [(usize, usize)],
    (usize, u64, u64),
    (Option<usize>, bool, bool),
    u64,
);

struct Row {
    name: &'static str,
    steps: &'static [Step],
    // What is left: each key with its line.
    left: &'static [(usize, &'static [usize])],
}

static ROWS: [Row; 7] = [
    Row {
        name: "fair once the moment is past, not at it",
        steps: &[
            (&[(0, 0)], (0, 1, 999), (Some(0), false, true), 1000),
            (&[(1, 0)], (0, 1000, 5), (Some(1), false, false), 1000),
        ],
        left: &[(0, &[])],
    },
    Row {
        name: "a handoff moves the next moment, and a release to nobody leaves it",
        steps: &[
            (&[(1, 0)], (0, 5, 7), (Some(1), false, true), 12),
            (&[], (0, 12, 7), (None, false, false), 12),
        ],
        left: &[(0, &[])],
    },
    Row {
        name: "at moment 0 it is not fair, and the next moment stays",
        steps: &[(&[(1, 0)], (0, 0, 7), (Some(1), false, false), 0)],
        left: &[(0, &[])],
    },
    Row {
        name: "the next moment stops at the last one",
        steps: &[
            (&[(0, 0), (1, 0)], (0, LAST, 7), (Some(0), true, true), LAST),
            (&[], (0, LAST, 7), (Some(1), false, false), LAST),
        ],
        left: &[(0, &[])],
    },
    Row {
        name: "a word of a whole millisecond adds nothing",
        steps: &[(&[(0, 0)], (0, 50, 1_000_000), (Some(0), false, true), 50)],
        left: &[(0, &[])],
    },
    Row {
        name: "nobody waits on the key, so nothing changes",
        steps: &[(&[(2, 1)], (13, 5, 0), (None, false, false), 0)],
        left: &[(1, &[2])],
    },
    Row {
        name: "who waits on another key may be more",
        steps: &[(
            &[(1, 13), (2, 1), (3, 13)],
            (1, 0, 9),
            (Some(2), true, false),
            0,
        )],
        left: &[(13, &[1, 3])],
    },
];

fn queue_all(rt: &impl Abort, bucket: &mut Bucket<BareRoot>, pairs: &[(usize, usize)])
    ensures places { bucket.new.places ≡ bucket.old.places }
    ensures opened { bucket.new.opened ≡ bucket.old.opened }
{
    for (thread, key) in pairs {
        is_so(rt, bucket.len() < bucket.room(), "there is room");
        bucket.enqueue(*thread, *key);
        is_so(rt, bucket.has_thread(*thread), "it is queued");
    }
}

#[tactic(auto, using(lot_bucket::proofs::Laws::line_fits))]
fn expect_line(
    rt: &impl Abort,
    bucket: &mut Bucket<BareRoot>,
    key: usize,
    line: &[usize],
    name: &str,
)
    ensures { bucket.new ≡ record bucket.old { queue = without_key key bucket.old.queue } }
{
    let mut out = [0; ROOM];
    is_so(rt, bucket.len() <= out.len(), "there is room");
    let count = bucket.dequeue_all(key, &mut out);
    equal_in(rt, out.get(..count), Some(line), name);
}

// Takes the first of a key's line, at most so many as are asked for, and looks who they are and whether more may wait.
#[tactic(auto, using(lot_bucket::proofs::Laws::line_fits))]
fn expect_first(
    rt: &impl Abort,
    bucket: &mut Bucket<BareRoot>,
    asked: (usize, usize),
    line: &[usize],
    more: bool,
)
    ensures places { bucket.new.places ≡ bucket.old.places }
    ensures opened { bucket.new.opened ≡ bucket.old.opened }
{
    let (key, count) = asked;
    let mut out = [0; ROOM];
    is_so(rt, bucket.len() <= out.len(), "there is room");
    let (taken, more_wait) = bucket.dequeue_count(key, count, &mut out);
    equal_in(rt, out.get(..taken), Some(line), asked);
    equal_in(rt, more_wait, more, asked);
}

fn expect_step(rt: &impl Abort, bucket: &mut Bucket<BareRoot>, step: &Step, name: &str)
    ensures places { bucket.new.places ≡ bucket.old.places }
    ensures opened { bucket.new.opened ≡ bucket.old.opened }
{
    let (queued, (key, now, word), (thread, more, fair), next_fair) = *step;
    queue_all(rt, bucket, queued);
    let taken = bucket.dequeue_one(key, Moment { now, word });
    let wanted = Dequeued { thread, more, fair };
    equal_in(rt, taken, wanted, name);
    equal_in(rt, bucket.next_fair(), next_fair, name);
}

fn expect_row(rt: &impl Abort, bucket: &mut Bucket<BareRoot>, row: &Row)
    ensures places { bucket.new.places ≡ bucket.old.places }
    ensures opened { bucket.new.opened ≡ bucket.old.opened }
    ensures empty { bucket.new.queue ≡ [] }
{
    for step in row.steps {
        expect_step(rt, bucket, step, row.name);
    }
    for (key, line) in row.left {
        expect_line(rt, bucket, *key, line, row.name);
    }
    is_so_in(rt, bucket.is_empty(), row.name);
}

#[test]
#[tactic(auto, using(lot_bucket::proofs::Slots::rootless_empty))]
fn one_is_taken(rt: HostRuntime) -> Result<(), Fail> {
    for row in &ROWS {
        let mut bucket: Bucket<BareRoot> = Bucket::new(rt.alloc(), ROOM, &[0, 1, 13])?;
        expect_row(&rt, &mut bucket, row);
        bucket.discard();
    }
    Ok(())
}

// One thread waits alone, on this key, and nobody was yet handed anything.
fn expect_one(rt: &impl Abort, bucket: &Bucket<BareRoot>, key: usize) {
    equal(rt, bucket.len(), 1);
    equal(rt, bucket.line_length(key), 1);
    equal(rt, bucket.next_fair(), 0);
}

// Of three threads of a key two are taken, then the third, and then nobody is left.
fn take_two_then_one(rt: &impl Abort, bucket: &mut Bucket<BareRoot>)
    ensures places { bucket.new.places ≡ bucket.old.places }
    ensures opened { bucket.new.opened ≡ bucket.old.opened }
    ensures empty { bucket.new.queue ≡ [] }
{
    queue_all(rt, bucket, &[(1, 13), (2, 13), (3, 13)]);
    expect_first(rt, bucket, (13, 2), &[1, 2], true);
    expect_first(rt, bucket, (13, 5), &[3], false);
    expect_first(rt, bucket, (13, 1), &[], false);
    is_so(rt, bucket.is_empty(), "all are taken");
}

#[test]
#[tactic(auto, using(lot_bucket::proofs::Slots::rootless_empty))]
fn several_are_taken(rt: HostRuntime) -> Result<(), Fail> {
    let mut bucket: Bucket<BareRoot> = Bucket::new(rt.alloc(), ROOM, &[1, 13])?;
    queue_all(&rt, &mut bucket, &[(1, 13), (2, 1), (3, 13)]);
    expect_line(&rt, &mut bucket, 13, &[1, 3], "the line of 13");
    expect_one(&rt, &bucket, 1);
    expect_line(&rt, &mut bucket, 1, &[2], "the line of 1");
    take_two_then_one(&rt, &mut bucket);
    bucket.discard();
    Ok(())
}

fn is_open_with_its_keys(rt: &impl Abort, bucket: &Bucket<BareRoot>) {
    is_so(rt, bucket.is_open(), "it is open");
    is_so(rt, bucket.has_key(13), "it has the key 13");
    is_so(rt, !bucket.has_key(7), "it does not have the key 7");
}

#[test]
fn roots_are_taken_out_and_put_back(rt: HostRuntime) -> Result<(), Fail> {
    let mut bucket = Bucket::new(rt.alloc(), ROOM, &[1, 13])?;
    is_so(&rt, !bucket.is_open(), "it is not yet open");
    bucket.put_root(1, BareRoot { key: 1 });
    bucket.put_root(13, BareRoot { key: 13 });
    bucket.open();
    is_open_with_its_keys(&rt, &bucket);
    let root = bucket.take_root(13);
    equal(&rt, root.key, 13);
    bucket.put_root(13, root);
    equal(&rt, bucket.take_root(1).key, 1);
    bucket.close();
    is_so(&rt, !bucket.is_open(), "it is closed");
    equal(&rt, bucket.take_root(13).key, 13);
    bucket.discard();
    Ok(())
}

#[test]
#[tactic(auto, using(lot_bucket::proofs::Slots::rootless_empty))]
fn keys_need_not_be_evenly_spaced(rt: HostRuntime) -> Result<(), Fail> {
    let bucket: Bucket<BareRoot> = Bucket::new(rt.alloc(), ROOM, &[3, 1, 9])?;
    for (key, has) in [(1, true), (3, true), (5, false), (9, true)] {
        equal_in(&rt, bucket.has_key(key), has, key);
    }
    bucket.discard();
    Ok(())
}

#[test]
#[tactic(auto, using(lot_bucket::proofs::Slots::rootless_empty))]
fn keys_are_evenly_spaced(rt: HostRuntime) -> Result<(), Fail> {
    let bucket: Bucket<BareRoot> = Bucket::spaced(rt.alloc(), ROOM, 1, 12, 3)?;
    for (key, has) in [(0, false), (1, true), (13, true), (25, true), (37, false)] {
        equal_in(&rt, bucket.has_key(key), has, key);
    }
    bucket.discard();
    Ok(())
}
