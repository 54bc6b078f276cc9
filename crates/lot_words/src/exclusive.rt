//! A value that only its owner reaches.
ghost use Rattle.std.specs.Prelude.{◌≡◌};
ghost use base.Fml.{ftrue};

use std::marker::Model;

/// A reference to it gives nothing of the value, so threads may share it wherever they may send the value. Its owner
/// takes the value out.
pub struct Exclusive<T> {
    pub(crate) value: T,
}

impl<T> Model for Exclusive<T> {
    ghost also_owns = { λ _. ftrue };
}

unsafe impl<T: Send> Send for Exclusive<T> {}

unsafe impl<T: Send> Sync for Exclusive<T> {}

impl<T> Exclusive<T> {
    pub fn new(value: T) -> Exclusive<T>
        ensures { result.value ≡ value }
    {
        Exclusive { value }
    }

    pub fn into_inner(self) -> T
        ensures { result ≡ self.value }
    {
        let Exclusive { value } = self;
        value
    }
}
