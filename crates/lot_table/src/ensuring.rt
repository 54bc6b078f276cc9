//! How a table comes to serve so many threads.

ghost use Rattle.std.specs.Prelude.{◌≤◌, IfOk};
ghost use Rattle.lot_table.specs.Sizes.{Serves};
ghost use Rattle.lot_table.specs.declared.sizes.TheConstants.{MOST_THREADS};

use crate::cells::Growing;
use crate::growing::Growth;
use crate::served::{Refused, Served};
use crate::sizes::{MOST_THREADS, grown_size};
use lot_bucket::Root;
use std::sync::Wait;
use std::thread;

/// Lets the table grow until it has three buckets for each of so many threads, as `Table::ensure`.
///
/// It is given one `G`, a type of which it knows nothing, and so it can make one `Growing<G>`, with which alone the
/// table grows: what it answers tells of all that it did.
pub fn ensure_with<W: Wait, R: Root, G: Drop>(
    rt: &W,
    growth: &Growth<'_, R, G>,
    threads: usize,
    once: G,
) -> Result<Served, Refused>
    requires { threads ≤ MOST_THREADS }
    ensures { IfOk result (λ g. Serves threads g) }
{
    let mut growing = Growing::new(once);
    for _ in rt.forever() {
        let newest = growth.newest();
        let size = newest.version.size();
        let grown = grown_size(size, threads);
        if grown == size {
            return Ok(Served::kept(&newest, size, growing));
        }
        match growth.grow(rt, &newest, grown, &mut growing) {
            Ok(Some((found, filled))) => {
                return Ok(Served::grew(&newest, size, &found, grown, filled, growing));
            }
            Ok(None) => thread::yield_now(),
            Err(denied) => return Err(Refused::unchanged(denied, growing)),
        }
    }
    unreachable!()
}
