//! A small value with a rule: a count that only grows, up to a thousand.
use lot_words::Keeps;

/// A count.
#[derive(Drop)]
pub struct Tally {
    pub total: u64,
}

impl Keeps for Tally {
    ghost use Rattle.std.specs.Prelude.{◌≤◌};
    ghost use Rattle.std.proofs.Common.{le_refl, le_trans};

    type Part = ();

    ghost keeps = { λ l x. x.total ≤ 1000 };

    ghost grows = { λ x y. x.total ≤ y.total };

    ghost part = { λ t x. tt };

    ghost grows_itself = { λ x. le_refl x.total };

    ghost grows_on = { λ x y z p q. le_trans p q };
}
