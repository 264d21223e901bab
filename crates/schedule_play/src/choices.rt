//! The choices of a schedule.

ghost use Rattle.std.specs.Prelude.{◌≡◌, ◌≤◌, IfOk};
ghost use Rattle.pipe_gen.specs.declared.choices.TheConstants as bounds;
ghost use Rattle.schedule_play.specs.SeedChoices.{first_choices};

use pipe_gen::choices::{MOST_INDEX, choice};
use pipe_model::memory::NoMemory;
use std::alloc::Global;

/// Returns the choices 1 to 65,536 of a seed, which is at most 65,535. Returns an error only if memory
/// runs out.
pub fn choices(alloc: Global, number: u32) -> Result<Vec<u32>, NoMemory>
    requires seed { number ≤ bounds.MOST_SEED }
    ensures choices { IfOk result (λ choices. choices.items ≡ first_choices number bounds.MOST_INDEX) }
{
    let mut choices = Vec::with_capacity(alloc, MOST_INDEX as usize)?;
    for k in 0..MOST_INDEX {
        choices.push_reserved(choice(number, k + 1));
    }
    Ok(choices)
}
