//! Laws of work and span. Each function has an empty body, and its contract is the law.

ghost use Rattle.pipe_span.specs.SpanLaws.{ColumnsHaveOneSpan, InstancesHaveSteps};

/// Columns whose instances have weights have at most one work, span and heaviest path: the rules
/// for equal weights always choose one.
#[tactic(auto, using(crate::proofs::ChosenPaths::columns_have_one_span))]
pub fn columns_have_one_span()
    ensures { ColumnsHaveOneSpan }
{}

/// The steps of a serial elision are one number for each stage instance of its columns, from 0 to
/// the declared budget.
pub fn instances_have_steps()
    ensures { InstancesHaveSteps }
{}
