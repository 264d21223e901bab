//! The limits of a program.

ghost use Rattle.std.specs.Prelude.{◌≡◌};
ghost use Rattle.pipe_model.specs.Language.CheckingRules.{is_between, first_limit_out};

use pipe_model::bounds::{MOST_EMITS, MOST_INSTANCES, MOST_ITERATIONS, MOST_STAGES, MOST_STEPS};
use pipe_model::tree::Limits;

// Whether the number is from `low` to `high`, both included.
fn is_between(low: i64, high: i64, number: i64) -> bool
    ensures { result ≡ is_between low high number }
{
    low <= number && number <= high
}

/// Returns the first limit that is out of its range, if there is one: 1 the iterations, 2 the
/// stages, 3 the product of the two, 4 the steps, 5 the emitted numbers.
pub fn first_limit_out(limits: &Limits) -> Option<u32>
    ensures { result ≡ first_limit_out limits.now }
{
    if !is_between(1, MOST_ITERATIONS, limits.iterations) {
        return Some(1);
    }
    if !is_between(1, MOST_STAGES, limits.stages) {
        return Some(2);
    }
    if limits.iterations * limits.stages > MOST_INSTANCES {
        return Some(3);
    }
    if !is_between(1, MOST_STEPS, limits.steps) {
        return Some(4);
    }
    if limits.emits > MOST_EMITS {
        return Some(5);
    }
    None
}
