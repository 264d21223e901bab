//! Worked examples, which the checker computes from the definitions.

ghost use Rattle.schedule_play.specs.ScheduleExamples.{ChoicesOfSeedOne};

/// The first choices of seed 1.
pub fn choices_of_seed_one()
    ensures { ChoicesOfSeedOne }
{}
