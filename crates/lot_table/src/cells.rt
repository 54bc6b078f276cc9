//! The cells in which later versions are published, each set once.

ghost use Rattle.std.specs.Prelude.{◌≡◌, true, false, IfOk, IfErr};

use crate::version::Version;
use lot_bucket::Root;
use std::marker::Model;
use std::sync::{OnceLock, OnceToken};

/// A version, and the token that shows which cell has it.
#[derive(Drop)]
pub struct Found<'a, R: Root> {
    pub version: &'a Version<R>,
    pub token: OnceToken<'a, Version<R>>,
    pub ghost same: { token.value ≡ version.now },
}

/// A cell that was seen unset: only a look at it gives one.
#[derive(Drop)]
pub struct Unset<'a, R: Root> {
    cell: &'a OnceLock<Version<R>>,
}

impl<'a, R: Root> Model for Unset<'a, R> {
    ghost use Rattle.std.specs.Sync.OnceLock.{Named};

    ghost Value = { Named };

    ghost view = { λ u. u.cell.now };
}

/// Whether a call has published a version. Only `publish` says that it has.
///
/// Each spends a `G`. A call that is given one, and knows nothing of the type, can't make a second `Growing<G>`: so the
/// one that it hands over tells of all that it has published.
#[derive(Drop)]
pub struct Growing<G> {
    has_grown: bool,
    spent: G,
}

impl<G> Growing<G> {
    /// It has published nothing yet.
    pub fn new(once: G) -> Growing<G>
        ensures { result.has_grown ≡ false }
    {
        Growing {
            has_grown: false,
            spent: once,
        }
    }
}

/// Looks once whether the cell is set.
pub fn look<R: Root>(cell: &OnceLock<Version<R>>) -> Result<Found<'_, R>, Unset<'_, R>>
    ensures set { IfOk result (λ f. f.token.of ≡ cell.now.id) }
    ensures unset { IfErr result (λ u. u ≡ cell.now) }
{
    match cell.witness() {
        Some(token) => Ok(Found {
            version: cell.value(&token),
            token,
        }),
        None => Err(Unset { cell }),
    }
}

/// Publishes the version in the cell, once in a call, or gives it back where the cell was set meanwhile.
pub fn publish<'a, R: Root, G>(
    unset: &Unset<'a, R>,
    version: Version<R>,
    growing: &mut Growing<G>,
) -> Result<Found<'a, R>, Version<R>>
    requires { growing.old.has_grown ≡ false }
    ensures published { IfOk result (λ f. (f.token.of ≡ unset.now.id) × (f.version.now ≡ version)) }
    ensures grown { IfOk result (λ f. growing.new.has_grown ≡ true) }
    ensures back { IfErr result (λ v. (v ≡ version) × (growing.new.has_grown ≡ false)) }
{
    let cell = unset.cell;
    match cell.try_set(version) {
        Ok(token) => {
            growing.has_grown = true;
            Ok(Found {
                version: cell.value(&token),
                token,
            })
        }
        Err(back) => Err(back),
    }
}
