//! All versions of a table.

ghost use Rattle.std.specs.Prelude.{◌≡◌, ◌+◌, ◌<◌, ◌≤◌, IfSome, MatchOption, vec_len, vec_capacity};
ghost use Rattle.lot_table.specs.declared.sizes.TheConstants.{MOST_VERSIONS};

use crate::cells::{Unset, look};
use crate::sizes::MOST_VERSIONS;
use crate::version::Version;
use lot_bucket::Root;
use std::sync::{OnceLock, OnceToken, Wait};

/// The newest version of a table: the first, or that of a cell, as a token shows. The cell of the next one, where
/// there can be one, was seen unset.
#[derive(Drop)]
pub struct Newest<'a, R: Root> {
    pub version: &'a Version<R>,
    pub token: Option<OnceToken<'a, Version<R>>>,
    pub next: Option<Unset<'a, R>>,
}

/// The versions of a table: the newest is in use, and the others were left for it.
pub struct Versions<R: Root> {
    first: Version<R>,
    // The versions after the first, each set once.
    later: Vec<OnceLock<Version<R>>>,
}

impl<R: Root> Versions<R> {
    ghost use Rattle.lot_table.specs.Cells.{IsNewest};

    /// The first version. `cells` has room for the others.
    pub fn new(first: Version<R>, cells: Vec<OnceLock<Version<R>>>) -> Versions<R>
        requires empty { vec_len cells ≡ 0 }
        requires room { MOST_VERSIONS ≤ vec_capacity cells + 1 }
    {
        let mut later = cells;
        for _ in 1..MOST_VERSIONS {
            later.push_reserved(OnceLock::new());
        }
        Versions { first, later }
    }

    /// The newest version that is set, and the cell after its own, which was seen unset.
    pub fn newest(&self) -> Newest<'_, R>
        ensures { IsNewest self.now.first self.now.later.items result.version.now result.token result.next }
    {
        let mut next = None;
        for place in (0..self.later.len()).rev() {
            match look(&self.later[place]) {
                Ok(found) => {
                    return Newest {
                        version: found.version,
                        token: Some(found.token),
                        next,
                    };
                }
                Err(unset) => next = Some(unset),
            }
        }
        Newest {
            version: &self.first,
            token: None,
            next,
        }
    }

    /// The version of so many buckets, where there is one.
    pub fn of_size(&self, size: usize) -> Option<&Version<R>> {
        for cell in self.later.iter() {
            match cell.get() {
                Some(version) if version.size() == size => return Some(version),
                _ => {}
            }
        }
        (self.first.size() == size).then_some(&self.first)
    }

    /// The newest version, once nobody else has the table. The others are spent.
    pub fn into_newest<W: Wait>(self, rt: &W) -> Version<R> {
        let Versions { first, later } = self;
        let mut later = later;
        let mut newest = None;
        while let Some(cell) = later.pop() {
            let older = with_number(cell.into_inner(), later.len() + 1);
            newest = newer(rt, newest, older);
        }
        later.destroy_empty();
        match newest {
            None => first,
            Some(Numbered { version, number: _ }) => {
                first.discard(rt);
                version
            }
        }
    }
}

// A version that was taken out, and its number.
struct Numbered<R: Root> {
    version: Version<R>,
    number: usize,
}

fn with_number<R: Root>(version: Option<Version<R>>, number: usize) -> Option<Numbered<R>>
    ensures { IfSome result (λ v. v.number ≡ number) }
{
    let version = version?;
    Some(Numbered { version, number })
}

// The newer of two versions, where both are there. The older is spent.
fn newer<W: Wait, R: Root>(
    rt: &W,
    newest: Option<Numbered<R>>,
    older: Option<Numbered<R>>,
) -> Option<Numbered<R>>
    requires { IfSome newest (λ n. IfSome older (λ o. o.number < n.number)) }
    ensures { MatchOption newest (result ≡ older) (λ n. result ≡ newest) }
{
    let Some(newest) = newest else {
        return older;
    };
    if let Some(Numbered { version, number: _ }) = older {
        version.discard(rt);
    }
    Some(newest)
}
