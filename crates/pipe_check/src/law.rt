//! Laws of the rules, and worked examples. Each function has an empty body, and its contract is the
//! law or the examples.

ghost use Rattle.pipe_check.specs.CheckingExamples.{HaveFaults, declarations, ranges, regions, scopes, uses};
ghost use Rattle.pipe_check.specs.RuleLaws.{FaultlessProgramsBreakNoRule, FaultsAreFirst};

/// A program has no fault exactly when each limit is in its range and no mark breaks a rule.
pub fn faultless_programs_break_no_rule()
    ensures { FaultlessProgramsBreakNoRule }
{}

/// A fault at a mark is the first one: no limit is out of its range, no earlier mark breaks a rule,
/// and the mark breaks no earlier rule.
pub fn faults_are_first()
    ensures { FaultsAreFirst }
{}

/// Worked examples, which the checker computes from the definitions: programs with their faults.
pub fn examples_have_their_faults()
    ensures uses { HaveFaults uses }
    ensures declarations { HaveFaults declarations }
    ensures regions { HaveFaults regions }
    ensures scopes { HaveFaults scopes }
    ensures ranges { HaveFaults ranges }
{}
