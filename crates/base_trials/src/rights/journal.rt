//! Two objects of one thread, and what their journals say.
ghost use Rattle.std.specs.Prelude.{◌≡◌, []};

use crate::asserts::{equal, equal_in, is_so};
use StackCall::{Pop, Push};
use StackReply::{Done, Empty, Full, Got};
use lot_journal::{Entry, Journal, Sequential};
use lot_words::Keeps;
use std::marker::Model;
use std::process::Abort;

/// Adds this much.
#[derive(Clone, Copy, Debug, PartialEq, Eq)]
struct Add(u64);

/// A total, modulo 2^64.
#[derive(Clone, Copy, Debug, PartialEq, Eq)]
struct Counter {
    total: u64,
}

impl Sequential for Counter {
    ghost use Rattle.std.specs.Prelude.{◌+◌, ◌%◌, ◌^◌};

    type Call = Add;

    type Reply = u64;

    ghost after = { λ counter call. record { total = (counter.total + call.0) % 2 ^ 64 } };

    ghost reply = { λ counter call. (counter.total + call.0) % 2 ^ 64 };

    fn apply(&mut self, call: &Add) -> u64 {
        self.total = self.total.wrapping_add(call.0);
        self.total
    }
}

/// A stack of at most four numbers.
#[derive(Drop)]
struct Stack4 {
    places: [u64; 4],
    len: usize,
}

impl Model for Stack4 {
    ghost use Rattle.std.specs.Prelude.{ℕ, ◌≤◌, List, take};

    ghost Value = { List ℕ };

    ghost view = { λ s. take s.len s.places };

    ghost invariant = { λ s. s.len ≤ 4 };
}

impl Stack4 {
    fn new() -> Stack4
        ensures { result ≡ [] }
    {
        Stack4 {
            places: [0; 4],
            len: 0,
        }
    }
}

#[derive(Clone, Copy, Debug, PartialEq, Eq)]
enum StackCall {
    Push(u64),
    Pop,
}

#[derive(Clone, Copy, Debug, PartialEq, Eq)]
enum StackReply {
    Done,
    Full,
    Got(u64),
    Empty,
}

impl Sequential for Stack4 {
    ghost use Rattle.std.specs.Prelude.{◌<◌, ◌-◌, ◌==◌, ◌++◌, ◌∷◌, [], if◌then◌else◌, nat_lt, length, take};
    ghost use Rattle.std.specs.Prelude.{slice_index};
    ghost use Rattle.base_trials.specs.declared.rights.journal.StackCall.TheVariants.{Push, Pop};
    ghost use Rattle.base_trials.specs.declared.rights.journal.StackReply.TheVariants.{Done, Full, Got, Empty};

    type Call = StackCall;

    type Reply = StackReply;

    ghost after = { λ items call. elim call [
      | Push n ↦ (if nat_lt (length items) 4 then items
          ++ n ∷ [] else items)
      | Pop ↦
          take (length items - 1) items
    ] };

    ghost reply = { λ items call. elim call [
      | Push n ↦ (if nat_lt (length items) 4 then Done else Full)
      | Pop ↦
          (if length items == 0 then Empty else Got (slice_index items (length items - 1)))
    ] };

    fn apply(&mut self, call: &StackCall) -> StackReply {
        match *call {
            StackCall::Push(n) => {
                if self.len < 4 {
                    self.places[self.len] = n;
                    self.len += 1;
                    StackReply::Done
                } else {
                    StackReply::Full
                }
            }
            StackCall::Pop => {
                if self.len == 0 {
                    StackReply::Empty
                } else {
                    self.len -= 1;
                    StackReply::Got(self.places[self.len])
                }
            }
        }
    }
}

static STACKS: [(&str, &[(StackCall, StackReply)]); 2] = [
    (
        "popped past its bottom",
        &[(Push(5), Done), (Pop, Got(5)), (Pop, Empty)],
    ),
    (
        "pushed past its top",
        &[
            (Push(1), Done),
            (Push(2), Done),
            (Push(3), Done),
            (Push(4), Done),
            (Push(5), Full),
            (Pop, Got(4)),
        ],
    ),
];

fn expect_replies(
    rt: &impl Abort,
    journal: &mut Journal<Stack4>,
    calls: &[(StackCall, StackReply)],
    name: &str,
) {
    for (call, reply) in calls {
        equal_in(rt, journal.call(0, *call), Ok(*reply), (name, *call));
    }
    equal_in(rt, journal.history().len(), calls.len(), name);
}

#[test]
fn a_stack_replies(rt: HostRuntime) {
    for (name, calls) in &STACKS {
        let mut journal = Journal::new(rt.alloc(), Stack4::new(), Stack4::new());
        expect_replies(&rt, &mut journal, calls, name);
    }
}

#[test]
fn two_threads_count(rt: HostRuntime) {
    let opening = Counter { total: 0 };
    let mut journal = Journal::new(rt.alloc(), opening, opening);
    is_so(&rt, journal.history().is_empty(), "nobody has called");
    equal(&rt, journal.call(0, Add(1)), Ok(1));
    equal(&rt, journal.call(1, Add(1)), Ok(2));
    let history = [entry(0, Add(1), 1), entry(1, Add(1), 2)];
    equal(&rt, journal.history(), history.as_slice());
    equal(&rt, *journal.object(), Counter { total: 2 });
    share(&journal);
}

/// What a lock that threads share may guard.
fn share<V: Keeps + Send>(_value: &V) {}

#[test]
fn a_counter_counts_modulo_two_to_the_64(rt: HostRuntime) {
    let opening = Counter { total: u64::MAX };
    let mut journal = Journal::new(rt.alloc(), opening, opening);
    equal(&rt, journal.call(63, Add(2)), Ok(1));
}

fn entry(thread: usize, call: Add, reply: u64) -> Entry<Add, u64> {
    Entry {
        thread,
        call,
        reply,
    }
}
