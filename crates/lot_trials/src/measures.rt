//! What the work of `lotbench` leaves, whatever time it takes.

use crate::asserts::{equal, failed, is_so};
use lot_load::measure::crew::run;
use lot_load::measure::keys::{keys_of, measure_keys};
use lot_load::measure::plan::plan_of;
use std::alloc::Global;
use std::process::Abort;
use std::sync::Wait;
use std::test::*;
use std::thread::Threads;
use std::time::Clock;

/// The plan that the words spell leaves this sum, and this number of rounds.
fn leaves<T: Threads + Wait + Clock + Sync + Abort>(
    rt: &T,
    alloc: Global,
    words: &[&str],
    sum: u64,
    all: u64,
) {
    let Some(plan) = plan_of(words) else {
        failed(rt, "no plan")
    };
    let Ok(summary) = run(rt, alloc, &plan) else {
        failed(rt, "no summary")
    };
    equal(rt, summary.sum, sum);
    equal(rt, summary.all, all);
}

#[test]
fn threads_count_all_rounds(rt: HostRuntime) {
    leaves(&rt, rt.alloc(), &["count", "3", "2", "500"], 1500, 1500);
}

#[test]
fn what_is_put_is_taken(rt: HostRuntime) {
    leaves(&rt, rt.alloc(), &["relay", "2", "3", "100"], 0, 200);
}

#[test]
fn locks_of_a_lot_of_many_are_counted(rt: HostRuntime) {
    let Some(keys) = keys_of(&["3", "1500", "200"]) else {
        failed(&rt, "no plan")
    };
    let Ok(figures) = measure_keys(&rt, rt.alloc(), &keys) else {
        failed(&rt, "no figures")
    };
    equal(&rt, figures.sum, 600);
    equal(&rt, figures.rounds, 600);
}

/// Words that are no command, and what they lack.
static REFUSED: [(&str, &[&str]); 5] = [
    ("a plan without threads", &["count", "0", "1", "1"]),
    ("no way", &["fair", "2", "1", "0", "0", "1"]),
    ("another way", &["fair", "2", "1", "0", "0", "1", "seldom"]),
    (
        "too many locks",
        &["fair", "2", "1025", "0", "0", "1", "clock"],
    ),
    (
        "a number with a zero before it",
        &["fair", "2", "1", "00", "0", "1", "never"],
    ),
];

#[test]
fn other_words_are_refused(rt: HostRuntime) {
    for (lack, words) in REFUSED.iter() {
        is_so(&rt, plan_of(words).is_none(), lack);
    }
    is_so(
        &rt,
        keys_of(&["1", "10000001", "1"]).is_none(),
        "too many keys",
    );
    is_so(
        &rt,
        plan_of(&["fair", "2", "2", "9", "9", "1", "always"]).is_some(),
        "a plan",
    );
}
