//! Work and span of a program's serial elision, and the lines that are printed of them.

ghost use Rattle.std.specs.Prelude.{◌≡◌, ◌++◌, [], None, IfOk, OnOk, string_bytes};
ghost use Rattle.pipe_model.specs.Language.CheckingRules.{BreaksNoRule};
ghost use Rattle.pipe_model.specs.Language.SyntaxTree.{tree_of};
ghost use Rattle.pipe_model.specs.Races.Reports.{number_at};
ghost use Rattle.pipe_model.specs.declared.exit_status.TheConstants as statuses;
ghost use Rattle.command_results.specs.SpanResults.{IsSpanText, instance_line, span_text};
ghost use Rattle.pipe_model.specs.Races.Columns.{node_columns};

use crate::command_result::CommandResult;
use pipe_check::checked::Checked;
use pipe_model::column::{Column, Columns};
use pipe_model::exit_status::FINISHED;
use pipe_model::list::{Bytes, Numbers};
use pipe_model::memory::NoMemory;
use pipe_model::node::NodeId;
use pipe_model::report::Reports;
use pipe_span::heaviest::{Span, heaviest};
use pipe_span::weigh::weigh;
use stage_code::lower::lower;
use std::alloc::{AllocError, Global};

// The stage number of an instance; 0 if the columns have none of this name.
fn number_of(columns: &[Column], x: NodeId) -> i64
    ensures { result ≡ number_at (node_columns columns.now) x }
{
    match columns.get(x.iteration as usize) {
        Some(column) => match column.nodes.as_slice().get(x.index as usize) {
            Some(node) => node.number,
            None => 0,
        },
        None => 0,
    }
}

// Appends the line of an instance.
fn push_instance(text: &mut String, columns: &[Column], x: NodeId) -> Result<(), AllocError>
    ensures { OnOk result (string_bytes text.new ≡ string_bytes text.old ++ instance_line (node_columns columns.now) x) }
{
    let iteration = x.iteration;
    let number = number_of(columns, x);
    writeln!(text, "{iteration}/{number}")
}

// The lines of work, span and the instances of the heaviest path.
fn span_lines(alloc: Global, columns: &[Column], found: &Span) -> Result<String, AllocError>
    ensures { IfOk result (λ text. string_bytes text ≡ span_text (node_columns columns.now) found.now) }
{
    let (work, span) = (found.work, found.span);
    let mut text = format!(in alloc; "work {work}\nspan {span}\n")?;
    for x in found.path.as_slice() {
        push_instance(&mut text, columns, *x)?;
    }
    Ok(text)
}

// The same lines as bytes.
fn span_bytes(alloc: Global, columns: &Columns, found: &Span) -> Result<Bytes, NoMemory>
    ensures { IfOk result (λ bytes. bytes ≡ span_text (node_columns columns.now) found.now) }
{
    let text = span_lines(alloc, columns.as_slice(), found)?;
    Ok(Bytes::from_vec(text.into_bytes()))
}

/// Returns the work, the span and the heaviest path of the serial elision of an accepted program,
/// as text. Returns an error only if memory runs out.
pub fn weighed_elision(alloc: Global, checked: &Checked, input: &Numbers) -> Result<Bytes, NoMemory>
    requires { BreaksNoRule (tree_of checked.now) }
    ensures { IfOk result (IsSpanText (tree_of checked.now) input.now) }
{
    let code = lower(alloc, checked)?;
    let weighed = weigh(alloc, checked, &code, input)?;
    let found = heaviest(alloc, &weighed.columns, &weighed.steps)?;
    span_bytes(alloc, &weighed.columns, &found)
}

/// Returns the result of `span` for an accepted program: the lines of work, span and heaviest path,
/// without a run log and reports. Returns an error only if memory runs out.
pub fn weighed_result(
    alloc: Global,
    checked: &Checked,
    input: &Numbers,
) -> Result<CommandResult, NoMemory>
    requires { BreaksNoRule (tree_of checked.now) }
    ensures text { IfOk result (λ a. IsSpanText (tree_of checked.now) input.now a.text) }
    ensures others { IfOk result (λ a. a ≡ record { status = statuses.FINISHED; text = a.text; run_log = None; reports = [] }) }
{
    Ok(CommandResult {
        status: FINISHED,
        text: weighed_elision(alloc, checked, input)?,
        run_log: None,
        reports: Reports::new(alloc),
    })
}
