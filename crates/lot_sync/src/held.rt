//! The value of a lock, while its owner has it.
ghost use Rattle.std.specs.Prelude.{◌≡◌};
ghost use Rattle.std.specs.Borrow.{Lends, sem};
ghost use Rattle.lot_sync.specs.contracts.held.Held.{the_row};

use std::marker::{Model, PhantomData};

/// The value of a lock that a pass owns. It must be spent, by an unlock with the pass that got it.
///
/// Read it by `value`, change it by `value_mut`; what is given back has to keep the rule of the value's `Keeps`.
pub struct Held<V, N> {
    key: usize,
    value: V,
    of: PhantomData<N>,
}

impl<V, N> Model for Held<V, N> {
    ghost use Rattle.lot_sync.specs.Lot.{HeldView};

    ghost Value = { HeldView V };

    ghost view = { λ s. record { key = s.key; value = s.value } };
}

impl<V, N> Held<V, N> {
    /// The value, got from the lock of this number.
    pub(crate) fn new(key: usize, value: V) -> Held<V, N>
        ensures key { result.key ≡ key }
        ensures value { result.value ≡ value }
    {
        Held {
            key,
            value,
            of: PhantomData,
        }
    }

    /// The value, to be given back to its lock.
    pub(crate) fn into_value(self) -> V
        ensures { result ≡ self.value }
    {
        let Held {
            key: _,
            value,
            of: _,
        } = self;
        value
    }

    /// The number of the lock.
    pub fn key(&self) -> usize
        ensures { result ≡ self.now.key }
    {
        self.key
    }

    /// Works on the value by value, as where a type has no other way to change:
    /// `held.replace_with(|value| (value.pushed(3), ()))`.
    pub fn replace_with<O, F: FnOnce(V) -> (V, O)>(self, work: F) -> (Held<V, N>, O)
        requires callable { F.pre work self.value }
        ensures { (left : _) × F.post work self.value left × (result.0 ≡ record self { value = left.0 })
            × (result.1 ≡ left.1) }
    {
        let Held { key, value, of } = self;
        let (value, outcome) = work(value);
        (Held { key, value, of }, outcome)
    }

    pub fn value(&self) -> &V
        ensures { result.now ≡ self.now.value }
    {
        &self.value
    }

    pub fn value_mut(&mut self) -> &mut V
        ensures* lends { sem 𝓛 (Lends (the_row V.row N.row) V.row self.entry result
            (λ w. record self.old { value = w })) }
        ensures value { result.now ≡ self.old.value }
    {
        &mut self.value
    }
}
