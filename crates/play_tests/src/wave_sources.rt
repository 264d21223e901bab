//! Sources of wave loops, and the programs to which they are lowered.

ghost use Rattle.std.specs.Prelude.{IfSome};
ghost use Rattle.pipe_model.specs.Language.CheckingRules.{BreaksNoRule};
ghost use Rattle.pipe_model.specs.Language.SyntaxTree.{tree_of};

use crate::sources::accepted;
use pipe_check::checked::Checked;
use pipe_check::program::check;
use std::alloc::Global;
use wave_lower::fault::WaveFault;
use wave_lower::wave::lower_wave;

/// Returns the fault of a source as a wave loop, if it is accepted and has one.
pub fn wave_fault(alloc: Global, source: &[u8]) -> Option<WaveFault> {
    let checked = accepted(alloc, source)?;
    match lower_wave(alloc, checked.program()) {
        Ok(program) => {
            drop(program);
            drop(checked);
            None
        }
        Err(fault) => {
            drop(checked);
            Some(fault)
        }
    }
}

/// Returns the lowered program of a source, or nothing if it is refused, is no wave loop, or memory runs out.
pub fn lowered(alloc: Global, source: &[u8]) -> Option<Checked>
    ensures { IfSome result (λ checked. BreaksNoRule (tree_of checked)) }
{
    let checked = accepted(alloc, source)?;
    let Ok(program) = lower_wave(alloc, checked.program()) else {
        drop(checked);
        return None;
    };
    drop(checked);
    let Ok(lowered) = check(alloc, program) else {
        return None;
    };
    Some(lowered)
}
