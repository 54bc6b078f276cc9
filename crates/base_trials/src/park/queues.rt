//! The places of one queue.

use crate::asserts::{equal, equal_in, is_so};
use lot_places::Queue;
use std::test::Fail;

#[test]
fn a_thread_from_the_middle_moves_no_other(rt: HostRuntime) -> Result<(), Fail> {
    let mut queue = Queue::new(rt.alloc(), 3)?;
    for (thread, key) in [(0, 1), (1, 13), (2, 1)] {
        is_so(&rt, queue.len() < queue.room(), "there is room");
        queue.push(thread, key);
    }
    let (first, middle, last) = (queue.place_of(0), queue.place_of(1), queue.place_of(2));
    is_so(
        &rt,
        first.is_some() && middle.is_some() && last.is_some(),
        "each has its place",
    );

    equal(&rt, queue.take_first(13), Some(1));
    equal(&rt, queue.place_of(0), first);
    equal(&rt, queue.place_of(2), last);

    is_so(&rt, queue.len() < queue.room(), "there is room");
    queue.push(3, 1);
    equal_in(
        &rt,
        queue.place_of(3),
        middle,
        "the freed place is used next",
    );
    equal(&rt, queue.place_of(0), first);
    equal(&rt, queue.place_of(2), last);
    for thread in [0, 2, 3] {
        equal(&rt, queue.take_first(1), Some(thread));
    }
    Ok(())
}
