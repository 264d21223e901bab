//! Laws of behaviours: what an iteration does, and the interaction tree of its statements.

ghost use Rattle.run_laws.specs.BehaviourLaws.{BindsAreInterpretedInTurn, InterpretersAreSerial, BehavioursPerform};

/// An interpreter that runs an interaction tree step by step, and takes the value of each read from
/// the accesses so far, makes the serial trace of the tree's behaviour. So code that is proved
/// against the tree makes the serial elision.
#[tactic(auto, using(crate::proofs::Iterations::Interpreters::interpreters_are_serial))]
pub fn interpreters_are_serial()
    ensures { InterpretersAreSerial }
{}

/// What a behaviour performs action by action is what it does with the replies in the actions, and
/// more replies only add actions at the end.
#[tactic(auto, using(crate::proofs::Iterations::PerformedActions::behaviours_perform))]
pub fn behaviours_perform()
    ensures { BehavioursPerform }
{}

/// Interpreting one tree and then another, which may use what the first returns, is interpreting
/// the first, and then the other from the progress that the first left. So an interpreter may be
/// proved statement by statement.
pub fn binds_are_interpreted_in_turn<A, B>()
    ensures { BindsAreInterpretedInTurn A B }
{}
