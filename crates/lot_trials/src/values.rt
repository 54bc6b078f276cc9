//! A value that asks nothing of its callers.
use lot_words::Keeps;

/// A number, of which nothing is kept: any may follow any other. A pass that is in was used for nothing yet.
#[derive(Clone, Copy)]
pub(crate) struct Number {
    pub(crate) n: u64,
}

impl Keeps for Number {
    ghost use Rattle.lot_trials.specs.Order.{IsUnused};

    type Part = ();

    ghost keeps = { λ key number. Unit {0} };

    ghost grows = { λ old new. Unit {0} };

    ghost part = { λ thread number. tt };

    ghost grows_itself = { λ number. tt };

    ghost rests = { IsUnused 1 };

    ghost grows_on = { λ x y z p q. tt };
}
