//! The steps of a thread of a schedule by which it gets a permit that it need not wait for, or that it makes while it
//! holds one.
ghost use Rattle.std.specs.Prelude.{◌≡◌};
ghost use Rattle.lot_trials.specs.Schedules.{HasPermits};

use crate::asserts::{equal, failed, is_so};
use crate::counts::Count;
use crate::standing::{Calm, OnLot, Standing, sem_key};
use crate::steps::Step;
use lot_sync::{LotName, Moment, Pass, Permit, Tried};
use std::process::Abort;
use std::sync::Wait;

/// A pass that holds one permit.
pub(crate) struct Holder<N: LotName<Count> + Send + Sync> {
    pub(crate) pass: Pass<Count, N>,
    pub(crate) permit: Permit<Count, N>,
    ghost has: { HasPermits pass permit 1 },
}

/// A pass that holds two permits of one semaphore.
pub(crate) struct HolderOfTwo<N: LotName<Count> + Send + Sync> {
    pub(crate) pass: Pass<Count, N>,
    first: Permit<Count, N>,
    second: Permit<Count, N>,
    ghost has: { HasPermits pass first 2 },
    ghost same: { (second.key ≡ first.key) × (second.thread ≡ first.thread) },
}

impl<N: LotName<Count> + Send + Sync, T: Wait + Abort> OnLot<'_, N, T> {
    /// `try_acquire` of a thread that owns nothing, with what is wanted of it.
    pub(crate) fn try_to_hold(&self, calm: Calm<N>, key: usize, wanted: bool) -> Standing<N> {
        let Calm { pass } = calm;
        sem_key(self.rt, key);
        let (pass, tried) = self.lot.try_acquire(pass, key);
        match tried {
            Tried::Got(permit) => {
                is_so(self.rt, wanted, "none is left");
                Standing::Holder(Holder { pass, permit })
            }
            Tried::Empty => {
                is_so(self.rt, !wanted, "one is left");
                Standing::Calm(Calm { pass })
            }
            Tried::Busy => failed(self.rt, "the semaphore was busy"),
        }
    }

    /// A step of a thread that holds one permit: it gets another of the same semaphore, at once or by waiting, or gives
    /// it back.
    pub(crate) fn when_holder(&self, holder: Holder<N>, step: Step) -> Standing<N> {
        let Holder { pass, permit } = holder;
        match step {
            Step::Acquire(key) => {
                sem_key(self.rt, key);
                is_so(
                    self.rt,
                    key == permit.key(),
                    "it holds one of this semaphore",
                );
                let (pass, second) = self.lot.acquire(self.rt, pass, key);
                Standing::HolderOfTwo(HolderOfTwo {
                    pass,
                    first: permit,
                    second,
                })
            }
            Step::TryAcquire(key, true) => {
                sem_key(self.rt, key);
                is_so(
                    self.rt,
                    key == permit.key(),
                    "it holds one of this semaphore",
                );
                Standing::HolderOfTwo(self.try_to_hold_another(Holder { pass, permit }))
            }
            Step::Release(now, wanted) => {
                let (pass, freed) = self
                    .lot
                    .release(self.rt, pass, permit, Moment { now, word: 7 });
                equal(self.rt, freed, wanted);
                Standing::Calm(Calm { pass })
            }
            _ => failed(self.rt, "no step of a thread that holds a permit"),
        }
    }

    /// `try_acquire` of a thread that holds a permit of the semaphore, which gets another.
    fn try_to_hold_another(&self, holder: Holder<N>) -> HolderOfTwo<N> {
        let Holder { pass, permit } = holder;
        let (pass, tried) = self.lot.try_acquire(pass, permit.key());
        match tried {
            Tried::Got(second) => HolderOfTwo {
                pass,
                first: permit,
                second,
            },
            Tried::Empty => failed(self.rt, "none is left"),
            Tried::Busy => failed(self.rt, "the semaphore was busy"),
        }
    }

    /// A step of a thread that holds two permits: it gives the second back, or finds that none is left for it.
    pub(crate) fn when_holder_of_two(&self, holder: HolderOfTwo<N>, step: Step) -> Standing<N> {
        let HolderOfTwo {
            pass,
            first,
            second,
        } = holder;
        match step {
            Step::Release(now, wanted) => {
                let (pass, freed) = self
                    .lot
                    .release(self.rt, pass, second, Moment { now, word: 7 });
                equal(self.rt, freed, wanted);
                Standing::Holder(Holder {
                    pass,
                    permit: first,
                })
            }
            Step::TryAcquire(key, false) => {
                is_so(
                    self.rt,
                    key == first.key(),
                    "it holds two of this semaphore",
                );
                let (pass, tried) = self.lot.try_acquire(pass, key);
                match tried {
                    Tried::Empty => Standing::HolderOfTwo(HolderOfTwo {
                        pass,
                        first,
                        second,
                    }),
                    Tried::Got(_third) => failed(self.rt, "one is left"),
                    Tried::Busy => failed(self.rt, "the semaphore was busy"),
                }
            }
            _ => failed(self.rt, "no step of a thread that holds two permits"),
        }
    }
}
