//! What a table is told when it is made.

ghost use base.Fml.{ftrue};
ghost use Rattle.std.specs.Prelude.{◌≡◌};

use std::marker::{Model, PhantomData};

/// The view of a table's first seat. It has no bytes: it stands in proofs alone.
pub struct Aim<V> {
    marker: PhantomData<V>,
    pub ghost view: { V } by { V.code },
}

impl<V> Model for Aim<V> {
    ghost also_owns = { λ _. ftrue };
}

impl<V> Aim<V> {
    pub fn of() -> Aim<V>
        ghost view: { V }
        ensures { result.view ≡ view }
    {
        Aim {
            marker: PhantomData,
        }
    }
}

impl<V> Drop for Aim<V> {
    fn drop(self) {
        let Self { marker: _ } = self;
    }
}
