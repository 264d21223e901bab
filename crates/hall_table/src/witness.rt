//! Values that a step is about.

ghost use Rattle.std.specs.Prelude.{◌≡◌};

use std::marker::Model;
use std::snapshot::Snapshot;

/// What a value is at some moment. It has no bytes. Contracts see the value.
#[derive(Drop)]
pub struct Witness<T> {
    it: Snapshot<T>,
}

impl<T> Model for Witness<T> {
    ghost Value = { T };

    ghost coded = { T.code };

    ghost view = { λ w. w.it.value };
}

impl<T> Witness<T> {
    // Returns a witness of the value.
    pub(crate) fn of(value: &T) -> Witness<T>
        ensures { result ≡ value.now }
    {
        let it = Snapshot::of(value);
        Witness { it }
    }
}
