//! What a table answers that was asked to serve so many threads.

ghost use Rattle.std.specs.Prelude.{◌≡◌, true, false, Some};
ghost use Rattle.lot_table.specs.Buckets.{IsMove};

use crate::cells::{Found, Growing};
use crate::denied::Denied;
use crate::sizes::{Grown, TableFault};
use crate::version::Filled;
use crate::versions::Newest;
use lot_bucket::Root;
use std::marker::Model;

/// What became of a table that was to serve so many threads. Only the table's own versions give one, so the sizes that
/// it tells are theirs.
#[derive(Drop)]
pub struct Served {
    grown: Grown,
}

impl Model for Served {
    ghost use Rattle.lot_table.specs.declared.sizes.Grown.{Grown};

    ghost Value = { Grown };

    ghost view = { λ s. s.grown };
}

impl Served {
    ghost use Rattle.lot_table.specs.declared.sizes.Grown.TheVariants.{Kept, Grew};

    /// The newest version is large enough, and the call has published none.
    pub(crate) fn kept<R: Root, G: Drop>(
        _newest: &Newest<'_, R>,
        size: usize,
        _growing: Growing<G>,
    ) -> Served
        requires size { size ≡ _newest.now.version.now.size }
        requires grown { _growing.has_grown ≡ false }
        ensures { result ≡ Kept size }
    {
        Served {
            grown: Grown::Kept(size),
        }
    }

    /// The call has published a version in the cell after that of the newest, and moved all lines and roots there.
    pub(crate) fn grew<R: Root, G: Drop>(
        _newest: &Newest<'_, R>,
        before: usize,
        _published: &Found<'_, R>,
        after: usize,
        _filled: Filled<R>,
        _growing: Growing<G>,
    ) -> Served
        requires before { before ≡ _newest.now.version.now.size }
        requires after { after ≡ _published.now.version.now.size }
        requires next { (cell : _) × (_newest.now.next ≡ Some cell) × (_published.now.token.of ≡ cell.id) }
        requires moved { IsMove before after _filled }
        requires grown { _growing.has_grown ≡ true }
        ensures { result ≡ Grew before after }
    {
        Served {
            grown: Grown::Grew(before, after),
        }
    }

    /// What became of the table, and the sizes.
    pub fn grown(&self) -> Grown
        ensures { result ≡ self.now }
    {
        self.grown
    }
}

/// That a table does not serve so many threads: a request for memory was refused, and the call has published no
/// version, so the table is as it was.
#[derive(Drop)]
pub struct Refused {
    denied: Denied,
}

impl Refused {
    pub(crate) fn unchanged<G: Drop>(denied: Denied, _growing: Growing<G>) -> Refused
        requires { _growing.has_grown ≡ false }
    {
        Refused { denied }
    }
}

impl From<Refused> for TableFault {
    fn from(refused: Refused) -> TableFault {
        let Refused { denied } = refused;
        denied.into()
    }
}
