//! The slots of locals.

ghost use Rattle.std.specs.Prelude.{◌≡◌, ◌<◌, ◌≤◌, ◌++◌, ◌∷◌, [], OnOk, length, take};
ghost use Rattle.pipe_model.specs.declared.bounds.TheConstants.{MOST_LOCALS};
ghost use Rattle.stage_code.specs.Slots.{slot_of};

use pipe_model::memory::NoMemory;
use pipe_model::name::Name;
use std::alloc::Global;
use std::marker::Model;

/// The locals in scope: the slot of a local is its index. Contracts see their names.
#[derive(Drop)]
pub struct Locals {
    names: Vec<Name>,
}

impl Model for Locals {
    ghost use Rattle.std.specs.Prelude.{ℕ, List};

    ghost Value = { List (List ℕ) };

    ghost view = { λ l. l.names.items };

    ghost use Rattle.std.specs.Prelude.{◌≤◌, length};
    ghost use Rattle.pipe_model.specs.declared.bounds.TheConstants.{MOST_LOCALS};

    ghost invariant = { λ l. length l.names.items ≤ MOST_LOCALS };
}

impl Locals {
    // Returns an empty scope.
    pub fn new(alloc: Global) -> Self
        ensures { result ≡ [] }
    {
        Locals {
            names: Vec::new(alloc),
        }
    }

    // Returns the slot of the local of this name, if there is one.
    pub fn slot_of(&self, name: &Name) -> Option<u16>
        ensures { result ≡ slot_of self.now name.now }
    {
        let mut slot = 0;
        for other in &self.names {
            if other.is(name) {
                return Some(slot);
            }
            slot += 1;
        }
        None
    }

    // Returns the number of locals, which is the slot of the next.
    pub fn len(&self) -> u16
        ensures { result ≡ length self.now }
    {
        self.names.len() as u16
    }

    // Appends a local.
    pub fn declare(&mut self, alloc: Global, name: &Name) -> Result<(), NoMemory>
        requires room { length self.old < MOST_LOCALS }
        ensures { OnOk result (self.new ≡ self.old ++ name.now ∷ []) }
    {
        self.names.push(Name::new(alloc, name.as_bytes())?)?;
        Ok(())
    }

    // Keeps the first locals only.
    pub fn leave(&mut self, kept: u16)
        ensures { self.new ≡ take kept self.old }
    {
        self.names.truncate(usize::from(kept));
    }
}
