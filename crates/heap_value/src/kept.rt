//! A value that is kept on the heap.

ghost use Rattle.std.specs.Prelude.{◌≡◌, IfOk};

use pipe_model::memory::NoMemory;
use std::alloc::Global;
use std::marker::Model;

/// A value on the heap, which is moved by its pointer. Contracts see the value.
#[derive(Drop)]
pub struct Kept<T> {
    it: Box<T>,
}

impl<T> Model for Kept<T> {
    ghost use Rattle.std.specs.Prelude.{◌≡◌};

    ghost Value = { T };

    ghost coded = { T.code };

    ghost view = { λ k. k.it.value };
}

impl<T> Kept<T> {
    ghost use Rattle.std.specs.Borrow.{sem};
    ghost use Rattle.std.specs.Prelude.{◌≡◌};
    ghost use Rattle.heap_value.specs.KeptValues.{LendsKept};

    /// Lends the value.
    pub fn get_mut(&mut self) -> &mut T
        ensures* writes_back { sem 𝓛 (LendsKept T.row self.entry result) }
        ensures value { result.now ≡ self.old }
    {
        self.it.as_mut()
    }

    /// Takes the value off the heap.
    pub fn into_inner(self) -> T
        ensures { result ≡ self }
    {
        let Kept { it } = self;
        Box::into_inner(it)
    }
}

impl<T: Drop> Kept<T> {
    /// Puts a value on the heap. Returns an error only if memory runs out.
    pub fn boxed(alloc: Global, value: T) -> Result<Kept<T>, NoMemory>
        ensures { IfOk result (λ kept. kept ≡ value) }
    {
        let it = Box::new(alloc, value)?;
        Ok(Kept { it })
    }
}
