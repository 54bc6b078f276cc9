//! Giving threads their passes, and taking them back.
ghost use Rattle.std.specs.Prelude.{◌≡◌, ◌<◌, ◌+◌, ◌-◌, ◌↔◌, IfOk, IfErr, IfSome};
ghost use Rattle.lot_table.specs.Sizes.{Serves};
ghost use Rattle.lot_sync.specs.Lot.{OwnsNone, HasShape, HasGrown, rested};

use crate::fault::RegisterFault;
use crate::lot::Lot;
use crate::pass::Pass;
use crate::pool::Pool;
use lot_park::{ParkingLot, Served};
use lot_scheme::{LotName, LotScheme, Tally};
use lot_words::Keeps;
use std::sync::{MutexGuard, Wait};
use std::thread;

impl<V: Keeps + Send, N: LotName<V> + Send, C: Tally + Send> Lot<V, N, C> {
    /// Gives the pass of the least number that is in, and lets the table of buckets grow for the passes that are out
    /// with it.
    ///
    /// `Full` where all passes are out; `NoMemory` where the table could not grow, and then the pass is in again.
    pub fn register<R: Wait>(&self, rt: &R) -> Result<Pass<V, N>, RegisterFault>
        ensures thread { IfOk result (λ pass. pass.thread < self.now.threads) }
        ensures free { IfOk result OwnsNone }
        ensures rests { IfOk result (λ pass. V.rests (rested pass)) }
        ensures shape { IfOk result (HasShape self.now) }
        ensures grown { IfOk result (λ pass. HasGrown V.grows N.values pass) }
    {
        let mut pool = self.pool.lock(rt);
        let registered = register_in(rt, &self.parking, &mut *pool, self.threads);
        let _ = MutexGuard::unlock(pool);
        match registered {
            Ok((pass, _served)) => {
                pass.check_whole();
                Ok(pass)
            }
            Err(fault) => Err(fault),
        }
    }

    /// Takes a pass back, which keeps what passes that are in keep. It is given again to the next thread that registers
    /// where it has the least number.
    pub fn leave<R: Wait>(&self, rt: &R, pass: Pass<V, N>)
        requires free { OwnsNone pass }
        requires rests { V.rests (rested pass) }
    {
        for _ in rt.forever() {
            let mut pool = self.pool.lock(rt);
            let pool_now = &mut *pool;
            if !pool_now.is_full(self.threads) {
                pool_now.put(pass);
                let _ = MutexGuard::unlock(pool);
                return;
            }
            let _ = MutexGuard::unlock(pool);
            thread::yield_now();
        }
        unreachable!()
    }

    /// The least pass that is in, or None where all are out. The table does not grow.
    pub fn take_left<R: Wait>(&mut self, rt: &R) -> Option<Pass<V, N>>
        ensures same { self.new ≡ self.old }
        ensures thread { IfSome result (λ pass. pass.thread < self.old.threads) }
        ensures free { IfSome result OwnsNone }
        ensures rests { IfSome result (λ pass. V.rests (rested pass)) }
        ensures shape { IfSome result (HasShape self.old) }
        ensures grown { IfSome result (λ pass. HasGrown V.grows N.values pass) }
    {
        let mut pool = self.pool.lock(rt);
        let taken = (*pool).take_least();
        let _ = MutexGuard::unlock(pool);
        match taken {
            Some(pass) => {
                pass.check_whole();
                Some(pass)
            }
            None => None,
        }
    }
}

/// Takes the pass of the least number, and gives it back where the table can't grow. No other thread registers
/// meanwhile. A pass comes with what the table answered, which has three buckets for each pass that is out.
fn register_in<V: Keeps + Send, N: LotName<V> + Send, C: Tally + Send, R: Wait>(
    rt: &R,
    parking: &ParkingLot<LotScheme<V, N, C>>,
    pool: &mut Pool<V, N, C>,
    threads: usize,
) -> Result<(Pass<V, N>, Served), RegisterFault>
    requires { (threads ≡ N.threads) × (parking.now.threads ≡ N.threads) }
    ensures free { IfOk result (λ r. OwnsNone r.0) }
    ensures rests { IfOk result (λ r. V.rests (rested r.0)) }
    ensures served { IfOk result (λ r. Serves (threads - pool.new) r.1) }
    ensures taken { IfOk result (λ r. pool.new + 1 ≡ pool.old) }
    ensures refused { IfErr result (λ fault. (pool.new ≡ pool.old) × ((fault ≡ RegisterFault.Full) ↔ (pool.old ≡ 0))) }
{
    let Some(pass) = pool.take_least() else {
        return Err(RegisterFault::Full);
    };
    match parking.ensure(rt, pool.count_out(threads)) {
        Ok(served) => Ok((pass, served)),
        Err(_) => {
            pool.put(pass);
            Err(RegisterFault::NoMemory)
        }
    }
}
