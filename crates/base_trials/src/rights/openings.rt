//! A table of semaphores that has none.
use crate::asserts::equal;
use lot_sems::SemWords;
use std::test::*;

#[test]
fn no_semaphores(rt: HostRuntime) -> Result<(), Fail> {
    let (words, mut passes, roots) = SemWords::open(rt.alloc(), 1, 2, Vec::new(rt.alloc()))?;
    let zero = passes.take_last();
    equal(&rt, (passes.len(), roots.len(), zero.thread()), (0, 0, 0));
    passes.push_reserved(zero);
    words.close(passes, roots);
    Ok(())
}
