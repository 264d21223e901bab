//! Payloads with a machine.

use heap_value::kept::Kept;
use pipe_frame::stands::Stands;
use stage_interp::machine::Machine;

/// A payload that holds a machine, and is at the start of the instance at which its machine is. All
/// machines run the same code. A machine is on the heap, so that a token that moves does not move its bytes.
pub trait Runs: Stands {
    ghost use Rattle.std.specs.Prelude.{◌≡◌, ℕ, ℤ, List, Option, Some, None, is_some, true};
    ghost use Rattle.pipe_model.specs.Language.SyntaxTree.{SyntaxTree};
    ghost use Rattle.pipe_worker.specs.Machines.{CanRun, HasMachine, IsAtInstance};
    ghost use Rattle.stage_code.specs.FlatCode.{FlatCode};
    ghost use Rattle.stage_interp.specs.MachineState.{MachineState};

    /// The code that the machines run.
    ghost code: { FlatCode };

    /// The machine, if there is one.
    ghost held: { Self → Option MachineState };

    /// Takes the machine out, which must be there.
    fn take_machine(&mut self) -> Kept<Machine>
        requires there { is_some (held self.old) ≡ true }
        ensures machine { held self.old ≡ Some result }
        ensures tie { Self.tie self.new ≡ Self.tie self.old };

    /// Puts a machine in. One that was there is dropped.
    fn put_machine(&mut self, machine: Kept<Machine>)
        ensures machine { held self.new ≡ Some machine }
        ensures tie { Self.tie self.new ≡ Self.tie self.old };

    /// A payload at the start of an instance has a machine that is there.
    ghost machine_ready: { (tree : SyntaxTree) (input : List ℤ) (x : Self) (i : ℕ) (replies : List (List ℤ))
        → Self.ready_at tree input x i replies → HasMachine (held x) (λ m. IsAtInstance code tree input m i replies) };

    /// A payload is at the start of the instance at which its machine is.
    ghost ready_by_machine: { (tree : SyntaxTree) (input : List ℤ) (x : Self) (i : ℕ) (replies : List (List ℤ))
        → HasMachine (held x) (λ m. IsAtInstance code tree input m i replies) → Self.ready_at tree input x i replies };

    /// A payload can run the program that its machine can run.
    ghost by_machine: { (tree : SyntaxTree) (x : Self) → HasMachine (held x) (CanRun code tree) → Self.whole tree x };
}
