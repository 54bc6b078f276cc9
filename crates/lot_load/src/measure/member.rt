//! A thread of a crew, with what it works on.
ghost use Rattle.std.specs.Prelude.{◌<◌};

use super::meeting::Meeting;
use super::value::Number;
use lot_sync::{Lot, LotName};
use std::sync::Wait;
use std::time::Clock;

/// A thread of a crew, and its lot, which has a lock at least.
#[derive(Drop)]
pub struct Member<'a, N: LotName<Number> + Send, T: Wait + Clock> {
    pub rt: &'a T,
    pub lot: &'a Lot<Number, N>,
    pub meeting: &'a Meeting,
    /// Its number in the crew.
    pub worker: usize,
    ghost locks: { 0 < lot.now.locks },
}
