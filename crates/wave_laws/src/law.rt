//! Laws of wave loops. Each function has an empty body, and its contract is the law.

ghost use Rattle.wave_laws.specs.WaveLaws.{FaultlessProgramsAreWaves, LoweredRacesAreThoseOfTheGrid, LoweredWavesAreGrids};
ghost use Rattle.wave_laws.specs.WaveLaws.{LoweredWavesAreSpellable, LoweredWavesBreakNoRule, PointsPrecede};
ghost use Rattle.wave_laws.specs.WaveLaws.{SpelledProgramsAreSmall, WavesHaveNoFault};

/// The serial elision of a lowered wave loop is the grid: output, trap, columns and accesses.
#[tactic(auto, using(crate::proofs::Grids::lowered_waves_are_grids))]
pub fn lowered_waves_are_grids()
    ensures { LoweredWavesAreGrids }
{}

/// The serial elision of the lowered program has a race exactly if the dag of the grid has one.
#[tactic(auto, using(crate::proofs::GridRaces::lowered_races_are_those_of_the_grid))]
pub fn lowered_races_are_those_of_the_grid()
    ensures { LoweredRacesAreThoseOfTheGrid }
{}

/// If no column was cut short by a trap, a point precedes another exactly if neither its column nor
/// its row is greater.
#[tactic(auto, using(crate::proofs::Precedence::points_precede))]
pub fn points_precede()
    ensures { PointsPrecede }
{}

/// A lowered wave loop breaks no rule of the checker.
#[tactic(auto, using(crate::proofs::LoweredMarks::lowered_waves_break_no_rule))]
pub fn lowered_waves_break_no_rule()
    ensures { LoweredWavesBreakNoRule }
{}

/// A lowered wave loop meets the conditions of the checker.
#[tactic(auto, using(crate::proofs::LoweredSizes::lowered_waves_are_spellable))]
pub fn lowered_waves_are_spellable()
    ensures { LoweredWavesAreSpellable }
{}

/// A program that a source spells is small enough to be lowered.
#[tactic(auto, using(crate::proofs::SmallPrograms::spelled_programs_are_small))]
pub fn spelled_programs_are_small()
    ensures { SpelledProgramsAreSmall }
{}

/// A program without a fault as a wave loop is one.
#[tactic(auto, using(crate::proofs::Faultless::faultless_programs_are_waves))]
pub fn faultless_programs_are_waves()
    ensures { FaultlessProgramsAreWaves }
{}

/// A wave loop that breaks no rule has no fault as a wave loop.
#[tactic(auto, using(crate::proofs::WavesHaveNoFault::waves_have_no_fault))]
pub fn waves_have_no_fault()
    ensures { WavesHaveNoFault }
{}
