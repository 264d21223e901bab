//! The programs of generated sources.

ghost use Rattle.workload_laws.specs.GeneratedPrograms.{GeneratedSourcesAreAccepted};

/// Each generated source is accepted, as its program.
pub fn generated_sources_are_accepted()
    ensures { GeneratedSourcesAreAccepted }
{}
