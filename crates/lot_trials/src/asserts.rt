//! Assertions as calls: what a macro writes at its place would be checked with all that the function around it knows.
ghost use Rattle.std.specs.Prelude.{◌≡◌, ◌≤◌, true, vec_len, vec_capacity};

use std::alloc::Global;
use std::fmt::Debug;
use std::process::Abort;

/// The test fails.
pub(crate) fn failed(rt: &impl Abort, what: &str) -> ! {
    panic!(rt; "{what}")
}

/// Room for so many, or the test fails.
pub(crate) fn room_for<T>(rt: &impl Abort, alloc: Global, count: usize) -> Vec<T>
    ensures empty { vec_len result ≡ 0 }
    ensures room { count ≤ vec_capacity result }
{
    let Ok(room) = Vec::with_capacity(alloc, count) else {
        failed(rt, "no memory")
    };
    room
}

/// A list of so many copies of the value, or the test fails.
pub(crate) fn copies<V: Copy>(rt: &impl Abort, alloc: Global, value: V, count: usize) -> Vec<V>
    ensures { vec_len result ≡ count }
{
    let Ok(values) = vec![in alloc; value; count] else {
        failed(rt, "no memory")
    };
    values
}

/// It is so, or the test fails.
pub(crate) fn is_so(rt: &impl Abort, is_so: bool, what: &str)
    ensures { is_so ≡ true }
{
    assert!(rt; is_so, "{what}");
}

/// What was found is what was wanted, or the test fails.
pub(crate) fn equal<T: PartialEq + Debug + Copy>(rt: &impl Abort, found: T, wanted: T) {
    assert_eq!(rt; found, wanted);
}

/// What was found in this row is what was wanted, or the test fails.
pub(crate) fn equal_in<T: PartialEq + Debug + Copy>(
    rt: &impl Abort,
    found: T,
    wanted: T,
    row: &str,
) {
    assert_eq!(rt; found, wanted, "{row}");
}

/// A thread was started, or the test fails.
pub(crate) fn started(rt: &impl Abort, is_started: bool) {
    assert!(rt; is_started, "a thread could not be started");
}

/// A text was written as it was wanted, or the test of this name fails.
pub(crate) fn same_text(rt: &impl Abort, found: &[u8], wanted: &str, name: &str) {
    assert!(rt; found == wanted.as_bytes(), "{wanted} is wanted of {name}");
}

/// A run ended with the status that is wanted, or the test of this name fails.
pub(crate) fn same_status(rt: &impl Abort, found: u8, wanted: u8, name: &str) {
    assert_eq!(rt; found, wanted, "status of {name}");
}
