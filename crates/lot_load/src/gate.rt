//! Places at which a test can hold a worker.

/// Where a worker of `count`, `relay` or `pool` stands in a round.
#[derive(Clone, Copy, Debug, PartialEq, Eq)]
pub enum Point {
    BeforeLock,
    Owning,
    BeforeRelease,
}

/// What a worker passes at each point of each round.
pub trait Gate {
    fn reached(&self, worker: usize, round: u64, point: Point);
}

/// The program's gate, which holds nobody.
#[derive(Clone, Copy)]
pub struct OpenGate;

impl Gate for OpenGate {
    fn reached(&self, _worker: usize, _round: u64, _point: Point) {}
}
