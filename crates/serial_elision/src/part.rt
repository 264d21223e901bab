//! `init`, an iteration or `final`.

ghost use Rattle.std.specs.Prelude.{◌≡◌, ◌≤◌, ◌<◌, ◌++◌, ◌∷◌, ◌-◌, [], IfOk, List, length, map, pos};
ghost use Rattle.cell_store.specs.ShardState.{IsStateAfter};
ghost use Rattle.pipe_model.specs.declared.access.Access.{Access};
ghost use Rattle.pipe_model.specs.Language.Programs.{natural, store_of};
ghost use Rattle.pipe_model.specs.Language.SyntaxTree.{tree_of};
ghost use Rattle.pipe_model.specs.Pipelines.SerialElision.{serial_trace};
ghost use Rattle.pipe_model.specs.Races.Columns.{at, no_node};
ghost use Rattle.stage_code.specs.FlatCode.{FlatCode};
ghost use Rattle.stage_interp.specs.MachineState.{IsMadeFor};
ghost use Rattle.stage_interp.specs.RemainingBehaviour.{IsCodeOf, behaviour_in};
ghost use Rattle.stage_interp.specs.TreeRuns.{interaction_in};
ghost use Rattle.serial_elision.specs.ElisionSteps.{step_counts};
ghost use Rattle.serial_elision.specs.PartRuns.{PartRan, Serves, longest_column};

use crate::instance::{InstanceEnd, run_instance};
use crate::log::Log;
use crate::prepared::Prepared;
use pipe_model::column::Column;
use pipe_model::list::Numbers;
use pipe_model::memory::NoMemory;
use pipe_model::node::{Kind, Node, NodeId, Nodes};
use stage_code::instr::Part;
use stage_interp::machine::Machine;
use std::alloc::Global;

// Returns the instances of an iteration that begins.
fn first_nodes(alloc: Global) -> Result<Nodes, NoMemory>
    ensures { IfOk result (λ nodes. nodes ≡ no_node ∷ []) }
{
    let mut nodes = Nodes::new(alloc);
    nodes.push(Node {
        number: 0,
        kind: Kind::Zero,
    })?;
    Ok(nodes)
}

// Returns the name of the last instance of an iteration.
fn last_node(iteration: u32, nodes: &Nodes) -> NodeId
    requires nonempty { 0 < length nodes.now }
    requires bounded { length nodes.now ≤ longest_column }
    ensures { result ≡ at iteration (length nodes.now - 1) }
{
    NodeId {
        iteration,
        index: nodes.len() as u32 - 1,
    }
}

// Runs a part from its beginning to its end, instance after instance, as an iteration of this
// number. Returns its column, and appends the steps of each instance. Returns an error only if
// memory runs out.
pub fn run_part(
    alloc: Global,
    machine: &mut Machine,
    prepared: &Prepared,
    part: Part,
    iteration: u32,
    log: Log,
    steps: &mut Numbers,
) -> Result<(Column, Log), NoMemory>
    requires code { IsCodeOf (tree_of prepared.now.checked.now) prepared.now.code.now }
    requires made { IsMadeFor prepared.now.code.now machine.old }
    requires serves { Serves (tree_of prepared.now.checked.now) log.cells }
    ensures ran { IfOk result (λ r. (before : List Access) → IsStateAfter (store_of (tree_of prepared.now.checked.now)) before log.cells
        → PartRan (store_of (tree_of prepared.now.checked.now)) before
        (serial_trace (store_of (tree_of prepared.now.checked.now))
        (behaviour_in (tree_of prepared.now.checked.now) prepared.now.input.now part iteration) before)
        iteration log r.0 r.1) }
    ensures steps { IfOk result (λ r. (before : List Access) → IsStateAfter (store_of (tree_of prepared.now.checked.now)) before log.cells
        → steps.new ≡ steps.old ++ map pos (step_counts (store_of (tree_of prepared.now.checked.now)) before
        (natural (tree_of prepared.now.checked.now).limits.steps) (natural (tree_of prepared.now.checked.now).limits.steps)
        (interaction_in (tree_of prepared.now.checked.now) prepared.now.input.now part iteration))) }
    ensures nonempty { IfOk result (λ r. 0 < length r.0.nodes) }
    ensures bounded { IfOk result (λ r. length r.0.nodes ≤ longest_column) }
    ensures made { IfOk result (λ r. (code : FlatCode) → IsMadeFor code machine.old → IsMadeFor code machine.new) }
    ensures serves { IfOk result (λ r. Serves (tree_of prepared.now.checked.now) r.1.cells) }
{
    machine.reset(part, iteration);
    let _limits = prepared.code.limits();
    let mut nodes = first_nodes(alloc)?;
    let mut log = log;
    loop {
        let node = last_node(iteration, &nodes);
        let (end, ran) = run_instance(machine, prepared, node, log)?;
        log = ran;
        steps.push(machine.steps())?;
        match end {
            InstanceEnd::Next(kind, number) => nodes.push(Node { number, kind })?,
            InstanceEnd::Ended(end) => {
                let column = Column {
                    nodes,
                    end: Some(end),
                };
                return Ok((column, log));
            }
        }
    }
}
