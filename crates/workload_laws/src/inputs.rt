//! The numbers of generated inputs.

ghost use Rattle.workload_laws.specs.GeneratedNumbers.{GeneratedInputsAreRead};

/// Each generated input is read as its items.
pub fn generated_inputs_are_read()
    ensures { GeneratedInputsAreRead }
{}
