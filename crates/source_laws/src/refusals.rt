//! Which sources are accepted, and why the others are refused.

ghost use Rattle.source_laws.specs.RefusalLaws.{SourcesHaveOneRefusal, RefusedSourcesAreNotAccepted, SourcesAreAcceptedAsOneProgram};
ghost use Rattle.source_laws.specs.RefusalLaws.{SourcesAreAcceptedOrRefused};

/// A source is refused for at most one reason.
pub fn sources_have_one_refusal()
    ensures { SourcesHaveOneRefusal }
{}

/// A source that is refused is not accepted.
pub fn refused_sources_are_not_accepted()
    ensures { RefusedSourcesAreNotAccepted }
{}

/// A source is accepted as at most one program.
pub fn sources_are_accepted_as_one_program()
    ensures { SourcesAreAcceptedAsOneProgram }
{}

/// Each source is accepted or refused.
pub fn sources_are_accepted_or_refused()
    ensures { SourcesAreAcceptedOrRefused }
{}
