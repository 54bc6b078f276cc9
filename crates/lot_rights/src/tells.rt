//! What a step tells the right that makes it. A call picks it by the name that it gives for `N`, which is std's
//! `Brand`.
use crate::kind::{Kind, RightsView};
use atomic_table::{Join, Play, Split};
use std::marker::{Brand, PhantomData};

/// Of the number found (at a store, the number stored), and the pass after, which is of this table.
pub trait TellsPass<P> {
    ghost use Rattle.std.specs.Prelude.{ℕ};
    ghost use Rattle.atomic_table.specs.Seated.{TableId};
    ghost use Rattle.lot_rights.specs.Shown.{PassShown};

    ghost table: { TableId };

    ghost then: { ℕ → PassShown P → Type 0 };
}

impl<P> TellsPass<P> for Brand {
    ghost use Rattle.lot_rights.specs.Opening.{no_table};

    ghost table = { no_table };

    ghost then = { λ n p. Unit {0} };
}

/// Of the number found, and the pass and the root after, which are of this table.
pub trait TellsBoth<P, R> {
    ghost use Rattle.std.specs.Prelude.{ℕ};
    ghost use Rattle.atomic_table.specs.Seated.{TableId};
    ghost use Rattle.lot_rights.specs.Shown.{PassShown, RootShown};

    ghost table: { TableId };

    ghost then: { ℕ → PassShown P → RootShown R → Type 0 };
}

impl<P, R> TellsBoth<P, R> for Brand {
    ghost use Rattle.lot_rights.specs.Opening.{no_table};

    ghost table = { no_table };

    ghost then = { λ n p q. Unit {0} };
}

/// Of the number found, and the root after, which is of this table.
pub trait TellsRoot<R> {
    ghost use Rattle.std.specs.Prelude.{ℕ};
    ghost use Rattle.atomic_table.specs.Seated.{TableId};
    ghost use Rattle.lot_rights.specs.Shown.{RootShown};

    ghost table: { TableId };

    ghost then: { ℕ → RootShown R → Type 0 };
}

impl<R> TellsRoot<R> for Brand {
    ghost use Rattle.lot_rights.specs.Opening.{no_table};

    ghost table = { no_table };

    ghost then = { λ n q. Unit {0} };
}

/// Of a value that leaves its slot and another that comes back: the slot, what the pass knows while the value is out,
/// and what it knows in the end.
pub trait Moves<P, S> {
    ghost use Rattle.std.specs.Prelude.{ℕ};

    ghost slot: { ℕ };

    ghost mid: { P → S → Type 0 };

    ghost back: { P → P → Type 0 };
}

impl<P, S> Moves<P, S> for Brand {
    ghost slot = { 0 };

    ghost mid = { λ p x. Unit {0} };

    ghost back = { λ p q. Unit {0} };
}

/// Of rights that stay as they are.
pub trait TellsFact {
    ghost fact: { Type 0 };
}

impl TellsFact for Brand {
    ghost fact = { Unit {0} };
}

pub struct PassStep<K, N> {
    of: PhantomData<(K, N)>,
}

impl<K: Kind, N: TellsPass<K::Pass>> Play<K::Slot, RightsView<K>> for PassStep<K, N> {
    ghost use Rattle.lot_rights.specs.Shown.{the_pass};
    ghost use Rattle.lot_rights.specs.Steps.{ToldPass};

    ghost then = { λ s me n me'. ToldPass N.table (the_pass K.no_pass me.0) N.then n me' };
}

pub struct BothStep<K, N> {
    of: PhantomData<(K, N)>,
}

impl<K: Kind, N: TellsBoth<K::Pass, K::Root>> Play<K::Slot, RightsView<K>> for BothStep<K, N> {
    ghost use Rattle.std.specs.Prelude.{drop};
    ghost use Rattle.lot_rights.specs.Shown.{the_pass, the_root};
    ghost use Rattle.lot_rights.specs.Steps.{ToldBoth};

    ghost then = { λ s me n me'. ToldBoth N.table (the_pass K.no_pass me.0)
        (the_root K.no_root (drop 1 me.0)) N.then n me' };
}

pub struct RootStep<K, N> {
    of: PhantomData<(K, N)>,
}

impl<K: Kind, N: TellsRoot<K::Root>> Play<K::Slot, RightsView<K>> for RootStep<K, N> {
    ghost use Rattle.lot_rights.specs.Shown.{the_root};
    ghost use Rattle.lot_rights.specs.Steps.{ToldRoot};

    ghost then = { λ s me n me'. ToldRoot N.table (the_root K.no_root me.0) N.then n me' };
}

pub struct OutStep<K, N> {
    of: PhantomData<(K, N)>,
}

impl<K: Kind, N: Moves<K::Pass, K::Slot>> Play<K::Slot, RightsView<K>> for OutStep<K, N> {
    ghost use Rattle.lot_rights.specs.Shown.{the_pass};
    ghost use Rattle.lot_rights.specs.Slots.{ToldOut};

    ghost then = { λ s me n me'. ToldOut N.slot (the_pass K.no_pass me.0) N.mid me' };
}

pub struct BackStep<K, N> {
    of: PhantomData<(K, N)>,
}

impl<K: Kind, N: Moves<K::Pass, K::Slot>> Play<K::Slot, RightsView<K>> for BackStep<K, N> {
    ghost use Rattle.lot_rights.specs.Shown.{the_pass};
    ghost use Rattle.lot_rights.specs.Slots.{ToldBack};

    ghost then = { λ s me n me'. ToldBack (the_pass K.no_pass me.0) N.back me' };
}

pub struct TwoStep<K, N> {
    of: PhantomData<(K, N)>,
}

impl<K: Kind, N: TellsFact> Play<K::Slot, RightsView<K>> for TwoStep<K, N> {
    ghost use Rattle.std.specs.Prelude.{drop};
    ghost use Rattle.lot_rights.specs.Shown.{the_pass};
    ghost use Rattle.lot_rights.specs.Steps.{ToldTwo};

    ghost then = { λ s me n me'. ToldTwo (the_pass K.no_pass me.0) (the_pass K.no_pass (drop 1 me.0)) N.fact me me' };
}

pub struct FactStep<K, N> {
    of: PhantomData<(K, N)>,
}

impl<K: Kind, N: TellsFact> Play<K::Slot, RightsView<K>> for FactStep<K, N> {
    ghost use Rattle.lot_rights.specs.Steps.{ToldFact};

    ghost then = { λ s me n me'. ToldFact N.fact me me' };
}

/// The rights of two seats, one after the other.
pub struct Both;

impl<K: Kind> Join<RightsView<K>> for Both {
    ghost use Rattle.std.specs.Prelude.{◌++◌, []};

    ghost both = { λ v w. v ++ w };

    ghost spent = { [] };
}

/// The first right of a seat, and the others.
pub struct FirstAndRest;

impl<K: Kind> Split<RightsView<K>> for FirstAndRest {
    ghost use Rattle.std.specs.Prelude.{take, drop};

    ghost left = { λ v. take 1 v };

    ghost right = { λ v. drop 1 v };
}

/// The first right of a seat goes to a new one.
pub struct Deal;

impl<K: Kind> Split<RightsView<K>> for Deal {
    ghost use Rattle.std.specs.Prelude.{take, drop};

    ghost left = { λ v. drop 1 v };

    ghost right = { λ v. take 1 v };
}
