//! Worked examples, which the checker computes from the definitions.

ghost use Rattle.pipe_gen.specs.WorkloadExamples.{FirstChoices, FirstItems, SmallSource};

/// The first choices of the seeds 1 and 0.
pub fn first_choices()
    ensures { FirstChoices }
{}

/// The first item of seed 0, and the input of seed 1 and size 3.
pub fn first_items()
    ensures { FirstItems }
{}

/// The source of size 3.
pub fn small_source()
    ensures { SmallSource }
{}
