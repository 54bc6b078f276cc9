//! What the lock of `pool` guards: how many workers have a permit.
ghost use Rattle.std.specs.Prelude.{◌≡◌};
ghost use Rattle.lot_load.specs.Insides.{IsBounded, HasGoneOn, GoesAs};

use lot_words::Keeps;

/// Which way a worker goes.
#[derive(Clone, Copy)]
pub enum Going {
    In,
    Out,
}

/// How many workers are counted in, the most that ever were at a time, and how many were counted out again.
#[derive(Drop)]
pub struct Inside {
    pub now: u64,
    pub most: u64,
    pub done: u64,
}

impl Keeps for Inside {
    ghost use Rattle.lot_load.specs.Growing.{neither_falls_itself, neither_falls_on};
    ghost use Rattle.lot_load.specs.Insides.{IsBounded, HasGoneOn};

    type Part = ();

    ghost keeps = { λ key inside. IsBounded inside };

    ghost grows = { HasGoneOn };

    ghost part = { λ thread inside. tt };

    ghost grows_itself = { neither_falls_itself (λ inside. inside.most) (λ inside. inside.done) };

    ghost grows_on = { neither_falls_on (λ inside. inside.most) (λ inside. inside.done) };
}

impl Inside {
    /// Nobody was counted yet.
    pub fn new() -> Inside
        ensures kept { IsBounded result }
        ensures empty { (result.now ≡ 0) × (result.most ≡ 0) × (result.done ≡ 0) }
    {
        Inside {
            now: 0,
            most: 0,
            done: 0,
        }
    }

    /// Counts a worker in, or out again.
    pub fn count(&mut self, going: Going)
        requires { IsBounded self.old }
        ensures counted { GoesAs going self.old self.new }
        ensures kept { IsBounded self.new }
        ensures grown { HasGoneOn self.old self.new }
    {
        match going {
            Going::In => {
                self.now = self.now.saturating_add(1);
                self.most = self.most.max(self.now);
            }
            Going::Out => {
                self.now = self.now.saturating_sub(1);
                self.done = self.done.saturating_add(1);
            }
        }
    }
}
