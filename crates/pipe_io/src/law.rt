//! The laws of reading an input. Each function has an empty body; its contract is the law.

ghost use Rattle.pipe_io.specs.InputLaws.{FaultyInputsAreNoNumbers, InputsAreOneList, InputsAreNumbersOrFaulty, InputsHaveOneFault};

/// An input has exactly one result: its numbers or its fault. `NoMemory` is not a result of the
/// input.
pub fn inputs_have_one_result()
    ensures one_list { InputsAreOneList }
    ensures one_fault { InputsHaveOneFault }
    ensures not_both { FaultyInputsAreNoNumbers }
    ensures one_of_them { InputsAreNumbersOrFaulty }
{}
