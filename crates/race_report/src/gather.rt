//! The reports of the races that were found.

ghost use Rattle.std.specs.Prelude.{◌≡◌, ◌≢◌, All, AllPairs, IfOk, map};
ghost use Rattle.std.specs.List.Sorted.{IsPermutation};
ghost use Rattle.pipe_model.specs.Races.Columns.{IsNodeOf, node_columns};
ghost use Rattle.pipe_model.specs.Races.Reports.{RiseByCell, number_at};
ghost use Rattle.race_report.specs.RaceReports.{IsFoundIn, report_found};

use access_history::history::Found;
use pipe_model::access::CellId;
use pipe_model::column::{Column, Columns};
use pipe_model::list::ListOf;
use pipe_model::memory::NoMemory;
use pipe_model::node::NodeId;
use pipe_model::report::{Report, Reports};
use std::alloc::Global;

// The stage number of an instance.
fn number_of(columns: &[Column], x: NodeId) -> i64
    requires { IsNodeOf (node_columns columns.now) x }
    ensures { result ≡ number_at (node_columns columns.now) x }
{
    columns[x.iteration as usize].nodes.as_slice()[x.index as usize].number
}

fn report_of(columns: &[Column], cell: CellId, race: Found) -> Report
    requires { IsFoundIn (node_columns columns.now) race }
    ensures { result ≡ report_found (node_columns columns.now) cell race }
{
    Report {
        cell,
        earlier: race.earlier,
        earlier_number: number_of(columns, race.earlier),
        earlier_kind: race.earlier_kind,
        later: race.later,
        later_number: number_of(columns, race.later),
        later_kind: race.later_kind,
    }
}

// The reports, in the order of the races.
fn reports_of(
    alloc: Global,
    found: &[(CellId, Found)],
    columns: &[Column],
) -> Result<Vec<Report>, NoMemory>
    requires { All (λ f. IsFoundIn (node_columns columns.now) f.1) found.now }
    ensures { IfOk result (λ reports. reports.items ≡ map (λ f. report_found (node_columns columns.now) f.0 f.1) found.now) }
{
    let mut reports = Vec::with_capacity(alloc, found.len())?;
    for (cell, race) in found {
        reports.push(report_of(columns, *cell, *race))?;
    }
    Ok(reports)
}

/// Returns a report for each race, rising by cell, with the stage numbers of its instances. The
/// cells must differ, and the instances must be in the columns. Returns an error only if memory
/// runs out.
pub fn gather(
    alloc: Global,
    found: &[(CellId, Found)],
    columns: &Columns,
) -> Result<Reports, NoMemory>
    requires cells { AllPairs (λ a b. a.0 ≢ b.0) found.now }
    requires instances { All (λ f. IsFoundIn (node_columns columns.now) f.1) found.now }
    ensures each { IfOk result (λ reports. IsPermutation (map (λ f. report_found (node_columns columns.now) f.0 f.1) found.now) reports) }
    ensures rise { IfOk result RiseByCell }
{
    let mut reports = reports_of(alloc, found, columns.as_slice())?;
    reports.sort_by_key(|r| r.cell.0)?;
    Ok(ListOf::from_vec(reports))
}
