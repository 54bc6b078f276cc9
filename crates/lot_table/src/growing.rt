//! What a call has in hand that lets a table grow.

ghost use Rattle.std.specs.Prelude.{◌≡◌, ◌<◌, true, false, Some, IfOk, IfErr, MatchOption};
ghost use Rattle.lot_table.specs.Buckets.{IsMove};

use crate::cells::{Found, Growing};
use crate::denied::Denied;
use crate::growth::Grower;
use crate::version::Filled;
use crate::versions::{Newest, Versions};
use lot_bucket::Root;
use std::marker::PhantomData;
use std::sync::Wait;

/// A table's versions and its grower, for one call: the table grows only with a `Growing` of the same `G`.
///
/// The fields are private: so who has this alone can neither let the table grow otherwise nor ask for memory.
#[derive(Drop)]
pub struct Growth<'a, R: Root, G> {
    versions: &'a Versions<R>,
    grower: &'a Grower,
    keys: usize,
    threads: usize,
    of: PhantomData<G>,
}

impl<'a, R: Root, G> Growth<'a, R, G> {
    ghost use Rattle.lot_table.specs.Cells.{IsNewest};

    pub fn new(
        versions: &'a Versions<R>,
        grower: &'a Grower,
        keys: usize,
        threads: usize,
    ) -> Growth<'a, R, G> {
        Growth {
            versions,
            grower,
            keys,
            threads,
            of: PhantomData,
        }
    }

    /// The newest version that is set, and the cell after its own, which was seen unset.
    pub fn newest(&self) -> Newest<'a, R>
        ensures { IsNewest self.now.versions.now.first self.now.versions.now.later.items result.version.now
            result.token result.next }
    {
        self.versions.newest()
    }

    /// Lets the table grow from its newest version where that may be, and answers the version that it published, and
    /// that all was moved there.
    pub fn grow<W: Wait>(
        &self,
        rt: &W,
        newest: &Newest<'a, R>,
        size: usize,
        growing: &mut Growing<G>,
    ) -> Result<Option<(Found<'a, R>, Filled<R>)>, Denied>
        requires size { 0 < size }
        requires first { growing.old.has_grown ≡ false }
        ensures published { IfOk result (λ r. MatchOption r (growing.new.has_grown ≡ false)
            (λ f. (growing.new.has_grown ≡ true) × (f.0.version.now.size ≡ size)
            × ((cell : _) × (newest.now.next ≡ Some cell) × (f.0.token.of ≡ cell.id))
            × IsMove newest.now.version.now.size size f.1)) }
        ensures refused { IfErr result (λ e. growing.new.has_grown ≡ false) }
    {
        let Some(next) = &newest.next else {
            return Ok(None);
        };
        let version = newest.version;
        self.grower
            .grow(rt, version, next, size, self.keys, self.threads, growing)
    }
}
