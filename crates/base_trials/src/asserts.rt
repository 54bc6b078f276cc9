//! Assertions as calls: what a macro writes at its place would be checked with all that the function around it knows.
ghost use Rattle.std.specs.Prelude.{◌≡◌, ◌≤◌, true, [], vec_len, vec_capacity};
ghost use Rattle.lot_park.specs.Lots.{AreIdle};

use lot_park::{MOST_THREADS, ParkingLot, Scheme};
use std::alloc::Global;
use std::fmt::Debug;
use std::process::Abort;

/// The test fails.
pub(crate) fn failed(rt: &impl Abort, what: &str) -> ! {
    panic!(rt; "{what}")
}

/// A parking lot for so many threads, and room for its roots, or the test fails.
pub(crate) fn opened_lot<S: Scheme>(
    rt: &impl Abort,
    alloc: Global,
    threads: usize,
    roots: Vec<S::Root>,
    scheme: S,
) -> (ParkingLot<S>, Vec<S::Root>)
    requires few { threads ≤ MOST_THREADS }
    requires idle { AreIdle S.Root.view roots.items }
    ensures lot { result.0 ≡ record { scheme = scheme; threads = threads; keys = vec_len roots } }
    ensures room { (vec_len result.1 ≡ 0) × (vec_capacity result.1 ≡ vec_capacity roots) }
    ensures empty { result.1.items ≡ [] }
{
    match ParkingLot::open(alloc, threads, roots, scheme) {
        Ok(opened) => opened,
        Err(_refused) => failed(rt, "no memory"),
    }
}

/// It is so, or the test fails.
pub(crate) fn is_so(rt: &impl Abort, is_so: bool, what: &str)
    ensures { is_so ≡ true }
{
    assert!(rt; is_so, "{what}");
}

/// The answer is the one that is wanted, or the test fails.
pub(crate) fn answer_is(rt: &impl Abort, answer: bool, wanted: bool)
    ensures { answer ≡ wanted }
{
    assert_eq!(rt; answer, wanted);
}

/// The letter is the one that is wanted, or the test fails.
pub(crate) fn letter_is(rt: &impl Abort, letter: Option<u32>, wanted: Option<u32>)
    ensures { letter ≡ wanted }
{
    assert_eq!(rt; letter, wanted);
}

/// What was found is what was wanted, or the test fails.
pub(crate) fn equal<T: PartialEq + Debug + Copy>(rt: &impl Abort, found: T, wanted: T) {
    assert_eq!(rt; found, wanted);
}

/// A word has the bits that are wanted, or the test fails.
pub(crate) fn bits_are(rt: &impl Abort, found: u64, wanted: u64)
    ensures { found ≡ wanted }
{
    assert_eq!(rt; found, wanted);
}

/// It is so in this row of a table, or the test fails.
pub(crate) fn is_so_in(rt: &impl Abort, is_so: bool, row: impl Debug + Copy)
    ensures { is_so ≡ true }
{
    assert!(rt; is_so, "{row:?}");
}

/// What was found in this row of a table is what was wanted, or the test fails.
pub(crate) fn equal_in<T: PartialEq + Debug + Copy>(
    rt: &impl Abort,
    found: T,
    wanted: T,
    row: impl Debug + Copy,
) {
    assert_eq!(rt; found, wanted, "{row:?}");
}

/// Whether the text is the told one, in which a `?` stands for any byte.
fn agrees(text: &[u8], told: &[u8]) -> bool {
    if text.len() != told.len() {
        return false;
    }
    for place in 0..told.len() {
        if told[place] != b'?' && told[place] != text[place] {
            return false;
        }
    }
    true
}

/// The text is the told one, in which a `?` stands for any byte, or the test fails.
pub(crate) fn is_as_told(rt: &impl Abort, text: &str, told: &str) {
    assert!(rt; agrees(text.as_bytes(), told.as_bytes()), "{text} / {told}");
}

/// The bytes are those of the text, or the test fails.
pub(crate) fn bytes_are(rt: &impl Abort, found: &[u8], wanted: &str, what: &str, row: &str) {
    assert!(rt; found == wanted.as_bytes(), "{what} of {row}");
}
