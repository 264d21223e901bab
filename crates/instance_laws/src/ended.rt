//! Instances that have come to their end.

ghost use Rattle.instance_laws.specs.EndedInstances.{MachinesPerformTheirInstances};

/// A machine that was at the beginning of an instance, and ran it over a memory without accesses, has
/// performed the accesses that the memory then has and the end that it returned. If the end names a
/// next stage, the machine is at the beginning of the next instance.
pub fn machines_perform_their_instances()
    ensures { MachinesPerformTheirInstances }
{}
