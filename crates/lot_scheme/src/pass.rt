//! A thread's pass under the name of its lot.
ghost use Rattle.std.specs.Prelude.{◌≡◌};

use crate::name::LotName;
use lot_rights::Named;
use lot_whole::{Keeps, LotPass};
use std::marker::Model;

/// A pass, as the parking lot sees it: how it stands, and the accesses that were made with it, without their places in
/// the history.
pub struct NamedPass<V: Keeps, N: LotName<V>> {
    named: Named<LotPass<V>, N>,
}

impl<V: Keeps, N: LotName<V>> Model for NamedPass<V, N> {
    ghost use Rattle.lot_scheme.specs.Standing.{LotStanding, standing};

    ghost Value = { LotStanding V };

    ghost view = { λ s. standing s.named };
}

impl<V: Keeps, N: LotName<V>> NamedPass<V, N> {
    ghost use Rattle.lot_scheme.specs.Standing.{standing};

    #[inline(always)]
    pub fn new(pass: LotPass<V>) -> NamedPass<V, N>
        requires { pass.table ≡ N.opening.locks }
        ensures { result ≡ standing pass }
    {
        NamedPass {
            named: Named::new(pass),
        }
    }

    #[inline(always)]
    pub fn into_pass(self) -> LotPass<V>
        ensures same { self ≡ standing result }
        ensures named { result.table ≡ N.opening.locks }
    {
        let NamedPass { named } = self;
        named.into_inner()
    }

    /// The number of the thread.
    #[inline(always)]
    pub fn thread(&self) -> usize
        ensures { result ≡ self.now.thread }
    {
        self.named.inner().thread()
    }
}
