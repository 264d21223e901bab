//! Worked examples of grids, which the checker computes from the definitions.

ghost use Rattle.wave_laws.specs.WaveExamples.{FirstPointTraps, LoweredWavesAreNoWaves, PointsAreCounted, SetRowsAreFaults};

/// A grid of two columns and two rows whose points take just the steps of the budget.
pub fn points_are_counted()
    ensures { PointsAreCounted }
{}

/// With one step less, the point in column 0 and row 0 traps and ends the grid.
pub fn first_point_traps()
    ensures { FirstPointTraps }
{}

/// A lowered program is no wave loop.
pub fn lowered_waves_are_no_waves()
    ensures { LoweredWavesAreNoWaves }
{}

/// A loop whose second statement sets the row has a fault at that mark.
pub fn set_rows_are_faults()
    ensures { SetRowsAreFaults }
{}
