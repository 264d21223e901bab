//! A stack of numbers with a fixed room.

ghost use Rattle.std.specs.Prelude.{◌≡◌, ◌<◌, ◌∷◌, [], length, IfOk};

use std::alloc::{AllocError, Global};
use std::marker::Model;

/// Numbers, and room for more. The stack grows downward, from the end of its cells.
#[derive(Drop)]
pub struct Stack {
    cells: Vec<i64>,
    top: usize,
}

impl Model for Stack {
    ghost use Rattle.std.specs.Prelude.{length, drop, ◌≤◌};
    ghost use Rattle.stage_interp.specs.StackState.{StackState};

    ghost Value = { StackState };

    ghost view = { λ s. record { items = drop s.top s.cells.items; depth = length s.cells.items } };

    ghost invariant = { λ s. s.top ≤ length s.cells.items };
}

impl Stack {
    /// Returns an empty stack with room for `depth` numbers. Returns an error only if memory runs out.
    pub fn new(alloc: Global, depth: u32) -> Result<Self, AllocError>
        ensures { IfOk result (λ s. s ≡ record { items = []; depth = depth }) }
    {
        let cells = vec![in alloc; 0; depth as usize]?;
        Ok(Stack {
            cells,
            top: depth as usize,
        })
    }

    /// Removes all numbers.
    pub fn clear(&mut self)
        ensures { self.new ≡ record self.old { items = [] } }
    {
        self.top = self.cells.len();
    }

    /// Pushes a number.
    #[inline(always)]
    pub fn push(&mut self, v: i64)
        requires { length self.old.items < self.old.depth }
        ensures { self.new ≡ record self.old { items = v ∷ self.old.items } }
    {
        self.top -= 1;
        self.cells[self.top] = v;
    }

    /// Pops the topmost number.
    #[inline(always)]
    pub fn pop(&mut self) -> i64
        requires { 0 < length self.old.items }
        ensures items { self.old.items ≡ result ∷ self.new.items }
        ensures depth { self.new.depth ≡ self.old.depth }
        ensures room { length self.new.items < self.new.depth }
    {
        let v = self.cells[self.top];
        self.top += 1;
        v
    }
}
