//! Values leave their slots and come back.
ghost use Rattle.std.specs.Prelude.{◌≡◌, ◌<◌};
ghost use mathlib.Core.Option.{some};
ghost use lib.ListN.{get_elem?};
ghost use Rattle.lot_words.specs.World.{Holds};
ghost use Rattle.lot_words.specs.Values.{IsIn, IsOut, HasSeen, MayBecome, MayLie, IsAtHome, in_slot, place_of};
ghost use Rattle.lot_words.specs.Calls.{placing};
ghost use Rattle.lot_words.specs.declared.views.Place.{Place};
ghost use Rattle.lot_words.specs.declared.views.Place.TheVariants.{InSlot, Out};

use crate::keeps::Keeps;
use crate::kind::LockPass;
use crate::words::LockWords;
use std::marker::Brand;

impl<V: Keeps> LockWords<V> {
    /// Takes the lock's value out of its slot. The lock stays held, and nobody else sees that the value is out.
    #[inline]
    pub fn value_out(&self, pass: LockPass<V>, key: usize) -> (LockPass<V>, V)
        requires table { pass.table ≡ self.now.table }
        requires key { key < self.now.size.locks }
        requires holds { Holds pass.own key }
        requires lies { (y : V) × IsIn pass.own key y }
        ensures pass { (result.0.table ≡ pass.table)
            × (result.0 ≡ record pass { own = placing pass.own key Out }) }
        ensures value { IsIn pass.own key result.1 }
        ensures out { IsOut result.0.own key }
    {
        let (pass, found) = self.exchange_value(pass, key, None);
        let Some(value) = found else { unreachable!() };
        (pass, value)
    }

    /// Puts a value into the lock's slot, out of which the pass took one. It keeps the caller's rule, has grown from
    /// the value that the pass found when it got the lock, and has the other threads' parts of that.
    #[inline]
    pub fn value_in(&self, pass: LockPass<V>, key: usize, value: V) -> LockPass<V>
        requires table { pass.table ≡ self.now.table }
        requires key { key < self.now.size.locks }
        requires holds { Holds pass.own key × IsOut pass.own key }
        requires lawful { (x : V) × HasSeen pass.own key x × MayBecome V.Keeps key pass.thread x value }
        ensures pass { (result.table ≡ pass.table)
            × (result ≡ record pass { own = placing pass.own key (InSlot value) }) }
        ensures lies { IsIn result.own key value }
    {
        let (pass, found) = self.exchange_value(pass, key, Some(value));
        let None = found else { unreachable!() };
        pass
    }

    // What lies in the slot is known to the pass, and what comes into it may lie there.
    #[inline]
    fn exchange_value(
        &self,
        pass: LockPass<V>,
        key: usize,
        new: Option<V>,
    ) -> (LockPass<V>, Option<V>)
        requires table { pass.table ≡ self.now.table }
        requires key { key < self.now.size.locks }
        requires holds { Holds pass.own key }
        requires home { (place : Place V) × (get_elem? pass.own.places key ≡ some place) × IsAtHome place }
        requires lawful { (x : V) → HasSeen pass.own key x → MayLie V.Keeps key pass.thread x (place_of new) }
        ensures pass { (result.0.table ≡ pass.table)
            × (result.0 ≡ record pass { own = placing pass.own key (place_of new) }) }
        ensures found { (place : Place V) → get_elem? pass.own.places key ≡ some place → result.1 ≡ in_slot place }
    {
        let words = &self.words;
        words.exchange::<Brand, ()>(pass, key, new, ())
    }
}
