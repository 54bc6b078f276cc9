//! A pool of connections on a semaphore: never more are out than there are, and none is out twice.
ghost use Rattle.std.specs.Prelude.{◌≡◌, ◌≢◌, ◌+◌, ◌≤◌, ◌<◌, ℕ, length};
ghost use Rattle.lot_scheme.specs.SemCalls.{opening_permits};
ghost use Rattle.lot_sync.specs.Lot.{OwnsNone, HasShape, permits_with};
ghost use Rattle.lot_sync.specs.Opened.{IsNamed};
ghost use Rattle.lot_sync.specs.Traces.{Adds};
ghost use Rattle.gallery.specs.Leases.{LeaseTrace, Leases, Holds, GivesBack};

use crate::crew::{NOW, end, open};
use lot_calls::{start_with_passes, work_together};
use lot_command::Failure;
use lot_sync::{Held, Lot, LotName, Opened, Pass, Permit};
use lot_words::Keeps;
use std::alloc::Global;
use std::marker::Brand;
use std::sync::Wait;
use std::thread::{Threads, yield_now};

/// How many connections there are: each lies in a lock, and there is a permit for each.
const CONNECTIONS: usize = 2;

/// The semaphore, after the locks.
const POOL: usize = 2;

const THREADS: usize = 4;

/// A connection, which tells how often it was used.
#[derive(Clone, Copy, Drop)]
pub struct Connection {
    used: u64,
}

impl Keeps for Connection {
    type Part = ();

    ghost part = { λ thread connection. tt };

    ghost grows_itself = { λ connection. tt };

    ghost grows_on = { λ x y z p q. tt };
}

/// A connection that is out, and the permit for it.
pub struct Lease<N: LotName<Connection> + Send> {
    permit: Permit<Connection, N>,
    connection: Held<Connection, N>,
}

/// The right of a thread that uses connections.
type User<N> = Pass<Connection, N>;

/// A pool of connections: a lot with a lock for each and one semaphore, as its threads see it.
#[derive(Drop)]
pub struct Pool<'a, N: LotName<Connection> + Send> {
    lot: &'a Lot<Connection, N>,
    ghost sizes: { (lot.now.locks ≡ 2) × (lot.now.conds ≡ 0) × (lot.now.sems ≡ 1) },
}

impl<N: LotName<Connection> + Send> Pool<'_, N> {
    /// Gets a connection, and waits where all are out: with a permit there is one whose lock is free, and it tries all
    /// in turn.
    pub fn take_out<T: Wait>(&self, rt: &T, pass: User<N>) -> (User<N>, Lease<N>)
        requires free { OwnsNone pass }
        ensures leases { Leases pass POOL result.1.permit result.1.connection result.0 }
        ensures shape { HasShape self.now.lot.now result.0 }
        ensures locks { result.1.connection.key < CONNECTIONS }
        ensures made { Adds pass.made (LeaseTrace pass.thread POOL result.1.connection.key) result.0.made }
    {
        let (mut pass, permit) = self.lot.acquire(rt, pass, POOL);
        let mut key = 0;
        for _ in rt.forever() {
            let (tried, got) = self.lot.try_lock(pass, key);
            pass = tried;
            if let Some(connection) = got {
                return (pass, Lease { permit, connection });
            }
            key = if key + 1 < CONNECTIONS { key + 1 } else { 0 };
            yield_now();
        }
        unreachable!()
    }

    /// Gives a connection back.
    pub fn give_back<T: Wait>(&self, rt: &T, pass: User<N>, lease: Lease<N>) -> User<N>
        requires locks { lease.connection.key < CONNECTIONS }
        requires holds { Holds pass POOL lease.permit lease.connection }
        ensures { GivesBack pass lease.permit lease.connection result }
    {
        let Lease { permit, connection } = lease;
        let (pass, _) = self.lot.unlock(rt, pass, connection, NOW);
        self.lot.release(rt, pass, permit, NOW).0
    }

    /// Gets a connection, uses it, and gives it back.
    fn use_once<T: Wait>(&self, rt: &T, pass: User<N>) -> User<N>
        requires free { OwnsNone pass }
        ensures { OwnsNone result }
    {
        let (pass, mut lease) = self.take_out(rt, pass);
        let connection = lease.connection.value_mut();
        connection.used = connection.used.wrapping_add(1);
        self.give_back(rt, pass, lease)
    }

    /// One thread, with all its rounds.
    fn work<T: Wait>(&self, rt: &T, pass: User<N>) -> User<N>
        requires free { OwnsNone pass }
        ensures { OwnsNone result }
    {
        let mut pass = pass;
        for _ in 0..100u64 {
            pass = self.use_once(rt, pass);
        }
        pass
    }
}

/// Shows of two leases that are out that their connections are two, and that both passes together have at most as
/// many as there are.
pub fn check_leases<N: LotName<Connection> + Send>(
    lot: &Lot<Connection, N>,
    first: User<N>,
    one: &Lease<N>,
    second: User<N>,
    two: &Lease<N>,
) -> (User<N>, User<N>)
    requires one { Holds first POOL one.now.permit one.now.connection }
    requires two { Holds second POOL two.now.permit two.now.connection }
    ensures same { (result.0 ≡ first) × (result.1 ≡ second) }
    ensures apart { one.now.connection.key ≢ two.now.connection.key }
    ensures never_more { permits_with first POOL + permits_with second POOL
        ≤ opening_permits N.first_sem N.permits POOL }
{
    let (first, second) = lot.check_apart(first, second);
    lot.check_permits(first, second)
}

/// Threads use connections, each only while it has a lease. Answers how often they were used.
pub fn run<T: Threads + Wait + Sync>(rt: &T, alloc: Global) -> Result<u64, Failure> {
    let values = vec![in alloc; Connection { used: 0 }; CONNECTIONS]?;
    let opened = open(alloc, THREADS, values, 0, &[2])?;
    run_on::<Brand, T>(rt, alloc, opened)
}

fn run_on<N: LotName<Connection> + Send + Sync, T: Threads + Wait + Sync>(
    rt: &T,
    alloc: Global,
    opened: Opened<Connection>,
) -> Result<u64, Failure>
    requires named { IsNamed N.LotName opened }
    requires sizes { (opened.threads ≡ THREADS) × (length opened.values ≡ CONNECTIONS) × (opened.conds ≡ 0)
        × (length opened.permits ≡ 1) }
{
    let Ok((lot, passes)) = start_with_passes::<Connection, N, T>(rt, alloc, THREADS, opened) else {
        return Err(Failure::NoMemory);
    };
    let pool = Pool { lot: &lot };
    let use_all = |pass: User<N>| -> User<N>
        requires { OwnsNone pass }
        ensures { OwnsNone result }
    { pool.work(rt, pass) };
    let (passes, worked) = work_together(rt, &use_all, passes);
    let values = end(rt, lot, passes, worked)?;
    Ok(values[0].used.wrapping_add(values[1].used))
}
